// What a message has after its transaction.
ghost use Rattle.std.specs.Prelude.{◌≡◌, ◌⊎◌, if◌then◌else◌, IsTrue, IfOk, IfErr};
ghost use Rattle.pv_format.specs.FirstFault.{is_kind, is_unsure_kind};
ghost use Rattle.pv_format.specs.Form.{in_sure_tree, in_tree};
ghost use Rattle.pv_format.specs.Layout.{body_layout};
ghost use Rattle.pv_fields.specs.Decoding.{Passes, Stops};
ghost use Rattle.pv_replay.specs.Faults.{fault_of};
ghost use Rattle.pv_replay.specs.Values.{form_of};
ghost use Rattle.pv_wire.specs.Reading.{PassesBody};
ghost use Rattle.pv_wire.specs.Values.{message_of};

use crate::Message;
use crate::fields::{take_cause, take_grant};
use crate::wants::take_wants;
use pv_base::TxnId;
use pv_bytes::Take;
use pv_replay::{Form, PolyError, take_item, take_reads, take_truth, take_txn};
use std::alloc::Global;

/// Reads what a message of this kind and transaction has besides, and answers the message.
pub fn take_body(
    alloc: Global,
    take: &mut Take<'_>,
    kind: u8,
    txn: TxnId,
) -> Result<Message, PolyError>
    requires { IsTrue (is_kind kind) }
    ensures passes { IfOk result (λ message. PassesBody kind txn (message_of message) take.old take.new) }
    ensures stops { IfErr result (λ e. Stops (body_layout kind) take.old (fault_of e)) }
{
    if kind == 1 {
        return take_lock(alloc, take, txn);
    }
    if kind == 2 || kind == 18 {
        return take_granted(alloc, take, kind, txn);
    }
    if kind == 3 {
        return take_denied(take, txn);
    }
    if kind == 4 || kind == 20 {
        return take_prepare(alloc, take, kind, txn);
    }
    if kind == 5 {
        return Ok(Message::Yes { txn });
    }
    if kind == 6 {
        return take_no(take, txn);
    }
    if kind == 7 {
        return take_outcome(take, txn);
    }
    Ok(Message::Ask { txn })
}

// Reads the wants.
fn take_lock(alloc: Global, take: &mut Take<'_>, txn: TxnId) -> Result<Message, PolyError>
    ensures passes { IfOk result (λ message. PassesBody 1 txn (message_of message) take.old take.new) }
    ensures stops { IfErr result (λ e. Stops (body_layout 1) take.old (fault_of e)) }
{
    let wants = take_wants(alloc, take)?;
    Ok(Message::Lock { txn, wants })
}

// The form of the values in a message of this kind.
fn form_for(kind: u8) -> Form
    ensures { form_of result ≡ (if is_unsure_kind kind then in_tree else in_sure_tree) }
{
    if kind == 18 || kind == 20 {
        return Form::Tree;
    }
    Form::SureTree
}

// Reads the grant and the values.
fn take_granted(
    alloc: Global,
    take: &mut Take<'_>,
    kind: u8,
    txn: TxnId,
) -> Result<Message, PolyError>
    requires { (kind ≡ 2) ⊎ (kind ≡ 18) }
    ensures passes { IfOk result (λ message. PassesBody kind txn (message_of message) take.old take.new) }
    ensures stops { IfErr result (λ e. Stops (body_layout kind) take.old (fault_of e)) }
{
    let grant = take_grant(take)?;
    let values = take_reads(alloc, take, 1, form_for(kind))?;
    Ok(Message::Granted { txn, grant, values })
}

// Reads the item that is held and its holder.
fn take_denied(take: &mut Take<'_>, txn: TxnId) -> Result<Message, PolyError>
    ensures passes { IfOk result (λ message. PassesBody 3 txn (message_of message) take.old take.new) }
    ensures stops { IfErr result (λ e. Stops (body_layout 3) take.old (fault_of e)) }
{
    let item = take_item(take, 0)?;
    let holder = take_txn(take)?;
    Ok(Message::Denied { txn, item, holder })
}

// Reads the grant and the new values.
fn take_prepare(
    alloc: Global,
    take: &mut Take<'_>,
    kind: u8,
    txn: TxnId,
) -> Result<Message, PolyError>
    requires { (kind ≡ 4) ⊎ (kind ≡ 20) }
    ensures passes { IfOk result (λ message. PassesBody kind txn (message_of message) take.old take.new) }
    ensures stops { IfErr result (λ e. Stops (body_layout kind) take.old (fault_of e)) }
{
    let grant = take_grant(take)?;
    let writes = take_reads(alloc, take, 0, form_for(kind))?;
    Ok(Message::Prepare { txn, grant, writes })
}

// Reads why there is no promise.
fn take_no(take: &mut Take<'_>, txn: TxnId) -> Result<Message, PolyError>
    ensures passes { IfOk result (λ message. PassesBody 6 txn (message_of message) take.old take.new) }
    ensures stops { IfErr result (λ e. Stops (body_layout 6) take.old (fault_of e)) }
{
    let cause = take_cause(take)?;
    Ok(Message::No { txn, cause })
}

// Reads the outcome.
fn take_outcome(take: &mut Take<'_>, txn: TxnId) -> Result<Message, PolyError>
    ensures passes { IfOk result (λ message. PassesBody 7 txn (message_of message) take.old take.new) }
    ensures stops { IfErr result (λ e. Stops (body_layout 7) take.old (fault_of e)) }
{
    let commits = take_truth(take)?;
    Ok(Message::Outcome { txn, commits })
}
