// A message from the bytes that spell it.
ghost use Rattle.std.specs.Prelude.{◌≡◌, IfOk};
ghost use Rattle.pv_format.specs.Message as model;
ghost use Rattle.pv_format.specs.MessageSpelling.{SpellsEnvelope};
ghost use Rattle.pv_wire.specs.Values.{envelope_of};

use pv_base::NoMemory;
use pv_wire::{Envelope, WireError, decode};
use std::alloc::Global;

/// The message that the bytes spell. Takes time in proportion to them.
pub(crate) fn envelope(alloc: Global, bytes: &[u8]) -> Result<Envelope, NoMemory>
    requires { (sent : model.Envelope) × SpellsEnvelope sent bytes.now }
    ensures spelled { IfOk result (λ envelope. SpellsEnvelope (envelope_of envelope) bytes.now) }
    ensures one { (sent : model.Envelope) → SpellsEnvelope sent bytes.now → IfOk result (λ envelope. envelope_of envelope ≡ sent) }
{
    match decode(alloc, bytes) {
        Ok(envelope) => Ok(envelope),
        Err(WireError::NoMemory) => Err(NoMemory),
        Err(WireError::Short(_)) => unreachable!(),
        Err(WireError::BadKind(_)) => unreachable!(),
        Err(WireError::BadField(_)) => unreachable!(),
        Err(WireError::BadPoly(_)) => unreachable!(),
        Err(WireError::Extra(_)) => unreachable!(),
    }
}
