// Messages as bytes: the kind, the sites, the transaction, and what the kind has besides.
ghost use Rattle.std.specs.Prelude.{◌≡◌, ◌++◌, ◌∷◌, ℕ, List, IfOk, OnOk};
ghost use Rattle.pv_base.specs.BigEndian.{big_endian};
ghost use Rattle.pv_format.specs.MessageSpelling.{SpellsBody, SpellsEnvelope};
ghost use Rattle.pv_wire.specs.Values.{envelope_of, message_of};

use crate::fields::{put_cause, put_grant};
use crate::length::body_length;
use crate::message::{kind_number, txn_of};
use crate::wants::put_wants;
use crate::{Envelope, Message};
use pv_base::{NoMemory, SiteId, TxnId};
use pv_bytes::Put;
use pv_replay::{put_reads, put_truth, put_txn};
use std::alloc::Global;

// How many bytes the kind, the sites and the transaction take.
const HEAD: usize = 12;

/// The bytes of a message, which has to have a spelling: its sites, items, numbers and counts are in range, and its items ascend. Takes
/// time in proportion to the bytes.
pub fn encode(alloc: Global, envelope: &Envelope) -> Result<Vec<u8>, NoMemory>
    requires { (bytes : List ℕ) × SpellsEnvelope (envelope_of envelope.now) bytes }
    ensures { IfOk result (λ bytes. SpellsEnvelope (envelope_of envelope.now) bytes.items) }
{
    let mut put = Put::with_room(alloc, HEAD + body_length(&envelope.message))?;
    put_envelope(&mut put, envelope)?;
    Ok(put.done())
}

/// The same bytes, in the memory of a vector whose own bytes are dropped. More is asked for only where that has no room for them.
pub fn encode_in(memory: Vec<u8>, envelope: &Envelope) -> Result<Vec<u8>, NoMemory>
    requires { (bytes : List ℕ) × SpellsEnvelope (envelope_of envelope.now) bytes }
    ensures { IfOk result (λ bytes. SpellsEnvelope (envelope_of envelope.now) bytes.items) }
{
    let mut put = Put::again(memory);
    put_envelope(&mut put, envelope)?;
    Ok(put.done())
}

// Writes a message on its way.
fn put_envelope(put: &mut Put, envelope: &Envelope) -> Result<(), NoMemory>
    requires { (bytes : List ℕ) × SpellsEnvelope (envelope_of envelope.now) bytes }
    ensures { (bytes : List ℕ) → SpellsEnvelope (envelope_of envelope.now) bytes → OnOk result (put.new.bytes ≡ put.old.bytes ++ bytes) }
{
    let message = &envelope.message;
    put.bytes(&head_bytes(
        kind_number(message),
        envelope.from,
        envelope.to,
        txn_of(message),
    ))?;
    put_body(put, message)
}

// The bytes of the kind, the sites and the transaction, to be written at once.
fn head_bytes(kind: u8, from: SiteId, to: SiteId, txn: TxnId) -> [u8; HEAD]
    ensures { result ≡ kind ∷ from.0 ∷ to.0 ∷ txn.site.0 ∷ (big_endian 4 txn.epoch ++ big_endian 4 txn.number) }
{
    let [a, b, c, d] = txn.epoch.to_be_bytes();
    let [e, f, g, h] = txn.number.to_be_bytes();
    [kind, from.0, to.0, txn.site.0, a, b, c, d, e, f, g, h]
}

// Writes what a message has after its transaction.
fn put_body(put: &mut Put, message: &Message) -> Result<(), NoMemory>
    requires { (bytes : List ℕ) × SpellsBody (message_of message.now) bytes }
    ensures { (bytes : List ℕ) → SpellsBody (message_of message.now) bytes → OnOk result (put.new.bytes ≡ put.old.bytes ++ bytes) }
{
    match message {
        Message::Lock { wants, .. } => put_wants(put, wants),
        Message::Granted { grant, values, .. } => {
            put_grant(put, *grant)?;
            put_reads(put, values)
        }
        Message::Denied { item, holder, .. } => {
            put.u32(item.0)?;
            put_txn(put, *holder)
        }
        Message::Prepare { grant, writes, .. } => {
            put_grant(put, *grant)?;
            put_reads(put, writes)
        }
        Message::Yes { .. } => Ok(()),
        Message::No { cause, .. } => put_cause(put, *cause),
        Message::Outcome { commits, .. } => put_truth(put, *commits),
        Message::Ask { .. } => Ok(()),
    }
}
