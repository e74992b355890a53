// The events of a script, one after another.
ghost use Rattle.std.specs.Prelude.{◌≡◌, ◌++◌, All, OnOk, IfOk};
ghost use Rattle.pv_outbox_run.specs.Answer.{IsPrintedBy};
ghost use Rattle.pv_outbox_run.specs.Stands.{says_of};
ghost use Rattle.pv_outbox_run.specs.ToldText.{told_texts};
ghost use Rattle.pv_outbox_script.specs.Held.{CanHappen};

use crate::cell::first_cell;
use crate::laws::scripts_keep_outputs;
use crate::told::{Told, push_told};
use pv_base::NoMemory;
use pv_outbox_script::Event;
use std::alloc::Global;

/// What the events of a script print, one after another, over an outbox whose disk was empty.
pub(crate) fn run(alloc: Global, events: &[Event]) -> Result<Vec<u8>, NoMemory>
    requires { All CanHappen events.now }
    ensures { IfOk result (λ text. IsPrintedBy events.now text.items) }
{
    scripts_keep_outputs();
    let mut cell = first_cell(alloc)?;
    let mut text = Vec::new(alloc);
    for event in events {
        let (next, told) = cell.with(alloc, event)?;
        cell = next;
        push_some(&mut text, told)?;
    }
    Ok(text)
}

// Puts what is told, if anything is, after what the buffer holds.
fn push_some(text: &mut Vec<u8>, told: Option<Told>) -> Result<(), NoMemory>
    ensures { OnOk result (text.new.items ≡ text.old.items ++ told_texts (says_of told)) }
{
    match told {
        Some(told) => push_told(text, told),
        None => Ok(()),
    }
}
