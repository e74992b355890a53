// Steps that are answered in a few words.
ghost use Rattle.std.specs.Prelude.{◌≡◌, ◌∷◌, [], None, IfOk};

use crate::{Note, Outgoing, Step};
use pv_base::{NoMemory, SiteId};
use pv_wire::Message;
use std::alloc::Global;

// Nothing is sent or reported.
pub(crate) fn nothing(alloc: Global) -> Step
    ensures sends { result.sends.items ≡ [] }
    ensures notes { result.notes.items ≡ [] }
    ensures locked { result.locked ≡ None }
{
    Step {
        sends: Vec::new(alloc),
        notes: Vec::new(alloc),
        locked: None,
    }
}

// This is reported.
pub(crate) fn noting(alloc: Global, note: Note) -> Result<Step, NoMemory>
    ensures sends { IfOk result (λ step. step.sends.items ≡ []) }
    ensures notes { IfOk result (λ step. step.notes.items ≡ note ∷ []) }
    ensures locked { IfOk result (λ step. step.locked ≡ None) }
{
    let mut notes = Vec::with_capacity(alloc, 1)?;
    notes.push(note)?;
    Ok(Step {
        sends: Vec::new(alloc),
        notes,
        locked: None,
    })
}

// This message is sent.
pub(crate) fn sending(alloc: Global, to: SiteId, message: Message) -> Result<Step, NoMemory>
    ensures sends { IfOk result (λ step. step.sends.items ≡ record { to = to; message = message } ∷ []) }
    ensures notes { IfOk result (λ step. step.notes.items ≡ []) }
    ensures locked { IfOk result (λ step. step.locked ≡ None) }
{
    let mut sends = Vec::with_capacity(alloc, 1)?;
    sends.push(Outgoing { to, message })?;
    Ok(Step {
        sends,
        notes: Vec::new(alloc),
        locked: None,
    })
}
