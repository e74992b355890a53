// Messages from bytes.
ghost use Rattle.std.specs.Prelude.{◌≡◌, ◌&&◌, IsTrue, IfOk, IfErr};
ghost use Rattle.pv_base.specs.Answer.{Answers};
ghost use Rattle.pv_format.specs.FirstFault.{EnvelopeFault, is_kind, is_unsure_kind};
ghost use Rattle.pv_format.specs.MessageSpelling.{SpellsEnvelope};
ghost use Rattle.pv_fields.specs.Decoding.{Stops};
ghost use Rattle.pv_replay.specs.Faults.{fault_of as part_fault_of};
ghost use Rattle.pv_wire.specs.Faults.{fault_of};
ghost use Rattle.pv_wire.specs.Reading.{PassesEnvelope, after_kind, has_only_sure};
ghost use Rattle.pv_wire.specs.Values.{envelope_of, message_of};

use crate::body::take_body;
use crate::{Envelope, Message, WireError};
use pv_bytes::Take;
use pv_replay::{PolyError, are_sure, take_site, take_txn};
use std::alloc::Global;

/// The message that the bytes spell, or their first fault in reading order. Room is made for what has been read, and by a
/// count alone for four elements at most. Takes time in proportion to the bytes.
pub fn decode(alloc: Global, bytes: &[u8]) -> Result<Envelope, WireError>
    ensures answer { Answers (λ envelope. SpellsEnvelope envelope bytes.now) (EnvelopeFault bytes.now) envelope_of fault_of result }
{
    let mut take = Take::new(bytes);
    let Ok(kind) = take.u8() else {
        return Err(WireError::Short(0));
    };
    if !is_kind(kind) {
        return Err(WireError::BadKind(kind));
    }
    let envelope = take_envelope(alloc, &mut take, kind)?;
    if !take.left().is_empty() {
        return Err(WireError::Extra(take.place()));
    }
    if has_wrong_kind(kind, &envelope.message) {
        return Err(WireError::BadField(0));
    }
    Ok(envelope)
}

// Whether the kind says that one of the message's values isn't sure, and all are.
fn has_wrong_kind(kind: u8, message: &Message) -> bool
    ensures { result ≡ (is_unsure_kind kind && has_only_sure (message_of message.now)) }
{
    is_unsure_kind(kind) && has_only_sure(message)
}

// Whether the byte is a kind of message with values of which one isn't sure.
fn is_unsure_kind(byte: u8) -> bool
    ensures { result ≡ is_unsure_kind byte }
{
    byte == 18 || byte == 20
}

// Whether all values in the message are sure.
fn has_only_sure(message: &Message) -> bool
    ensures { result ≡ has_only_sure (message_of message.now) }
{
    match message {
        Message::Granted { values, .. } => are_sure(values),
        Message::Prepare { writes, .. } => are_sure(writes),
        _ => true,
    }
}

// Whether the byte is a kind of message.
fn is_kind(byte: u8) -> bool
    ensures { result ≡ is_kind byte }
{
    (1..=8).contains(&byte) || is_unsure_kind(byte)
}

// Reads what stands in a message of this kind after the kind.
fn take_envelope(alloc: Global, take: &mut Take<'_>, kind: u8) -> Result<Envelope, PolyError>
    requires { IsTrue (is_kind kind) }
    ensures passes { IfOk result (λ envelope. PassesEnvelope kind (envelope_of envelope) take.old take.new) }
    ensures stops { IfErr result (λ e. Stops (after_kind kind) take.old (part_fault_of e)) }
{
    let from = take_site(take)?;
    let to = take_site(take)?;
    let txn = take_txn(take)?;
    let message = take_body(alloc, take, kind, txn)?;
    Ok(Envelope { from, to, message })
}
