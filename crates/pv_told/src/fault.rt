// Which requests stand before a fault.
ghost use Rattle.std.specs.Prelude.{◌≡◌, ◌&&◌, ◌||◌, IfOk, OnOk};
ghost use Rattle.pv_history.specs.Entries.{came_of, stamps_of};
ghost use Rattle.pv_mail.specs.declared.asked.Asker as mail;
ghost use Rattle.pv_told.specs.Along as law;
ghost use Rattle.pv_told.specs.Along.{has_fault_since, is_asked_by};
ghost use Rattle.pv_told.specs.Words.{has_asker};

use crate::asker::asker_of;
use pv_base::NoMemory;
use pv_history::{Entry, Seen};
use pv_mail::Asker;
use std::alloc::Global;

/// The requests after which, or at which, the site met a fault. Takes time in proportion to the history.
pub(crate) fn askers_before_a_fault(
    alloc: Global,
    history: &[Entry],
) -> Result<Vec<Asker>, NoMemory>
    ensures { (asker : mail.Asker) → IfOk result (λ askers. has_asker asker askers.items ≡ has_fault_since asker (stamps_of history.now)) }
{
    let mut askers = Vec::new(alloc);
    let mut fault = false;
    let mut at = history.len();
    while at > 0 {
        at -= 1;
        let entry = &history[at];
        fault = is_fault_or(&entry.seen, fault);
        push_if(&mut askers, fault, asker_of(&entry.input))?;
    }
    Ok(askers)
}

// Whether it is a fault, or this.
fn is_fault_or(seen: &Seen, other: bool) -> bool
    ensures { result ≡ (law.is_fault (came_of seen.now) || other) }
{
    match seen {
        Seen::Fault => true,
        Seen::Done(_) | Seen::Down => other,
    }
}

// Adds the request, if there is one and it is to be added.
fn push_if(askers: &mut Vec<Asker>, is_to_be: bool, asker: Option<Asker>) -> Result<(), NoMemory>
    ensures { (other : mail.Asker) → OnOk result (has_asker other askers.new.items ≡ ((is_asked_by other asker && is_to_be) || has_asker other askers.old.items)) }
{
    if let Some(asker) = asker {
        if is_to_be {
            askers.push(asker)?;
        }
    }
    Ok(())
}
