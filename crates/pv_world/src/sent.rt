// The lines of all messages that were sent.
ghost use Rattle.std.specs.Prelude.{◌≡◌, ◌++◌, ◌∷◌, [], List, Some, map, slice_get, IfOk, OnOk};
ghost use Rattle.pv_format.specs.Message.{Envelope, txn_of};
ghost use Rattle.pv_format.specs.MessageSpelling.{SpellsEnvelope};
ghost use Rattle.pv_protocol.specs.Lines as model;
ghost use Rattle.pv_protocol.specs.Report.{sent_from, sent_lines};
ghost use Rattle.pv_protocol.specs.World as protocol;
ghost use Rattle.pv_script.specs.LineView as line;
ghost use Rattle.pv_script.specs.LineView.{line_of};
ghost use Rattle.pv_wire.specs.Values.{message_of};
ghost use Rattle.pv_world.specs.Carry.{Carry};
ghost use Rattle.pv_world.specs.Mail.{Posted};
ghost use Rattle.pv_world.specs.Stands.{Stands};
ghost use Rattle.pv_world.specs.Steps.{lines_of};

use crate::World;
use crate::mail::Mail;
use crate::spelled::envelope;
use pv_base::{NoMemory, TxnId};
use pv_script::{Line, MessageKind};
use pv_wire::Message;
use std::alloc::Global;

impl World {
    /// Adds a line for each message that was ever sent. Takes time in proportion to their bytes.
    pub(crate) fn push_sent(&self, lines: &mut Vec<Line>) -> Result<(), NoMemory>
        requires { (is : protocol.World) × Stands self.now is }
        ensures { (is : protocol.World) → Stands self.now is → OnOk result (lines_of lines.new.items ≡ lines_of lines.old.items ++ sent_lines is) }
    {
        push_messages(self.alloc, &self.mail, lines)
    }
}

// Adds a line for each message, by its number.
fn push_messages(alloc: Global, mail: &Mail, lines: &mut Vec<Line>) -> Result<(), NoMemory>
    requires { (sent : List Envelope) × Carry mail.now.posts sent }
    ensures { (sent : List Envelope) → Carry mail.now.posts sent → OnOk result (map line_of lines.new.items ≡ map line_of lines.old.items ++ sent_from 0 sent) }
{
    for number in 0..mail.len() as u64 {
        push_message(alloc, mail, number, lines)?;
    }
    Ok(())
}

// Adds the line of the message of this number, if so many were sent.
fn push_message(
    alloc: Global,
    mail: &Mail,
    number: u64,
    lines: &mut Vec<Line>,
) -> Result<(), NoMemory>
    requires { (sent : List Envelope) × Carry mail.now.posts sent }
    ensures { (post : Posted) (envelope : Envelope) → slice_get mail.now.posts number ≡ Some post → SpellsEnvelope envelope post.bytes
        → OnOk result (map line_of lines.new.items ≡ map line_of lines.old.items ++ sent_from number (envelope ∷ [])) }
{
    let Some(bytes) = mail.get(number) else {
        return Ok(());
    };
    lines.push(line_of(alloc, number, bytes)?)?;
    Ok(())
}

// The line of a message, by its bytes.
fn line_of(alloc: Global, number: u64, bytes: &[u8]) -> Result<Line, NoMemory>
    requires { (envelope : Envelope) × SpellsEnvelope envelope bytes.now }
    ensures { (envelope : Envelope) → SpellsEnvelope envelope bytes.now
        → IfOk result (λ line. line_of line ≡ model.Line.sent number envelope.from envelope.to (model.kind_of envelope.message) (txn_of envelope.message)) }
{
    let envelope = envelope(alloc, bytes)?;
    let (kind, txn) = head_of(&envelope.message);
    Ok(Line::Sent {
        number,
        from: envelope.from,
        to: envelope.to,
        kind,
        txn,
    })
}

// What a message is, and which transaction it is of.
fn head_of(message: &Message) -> (MessageKind, TxnId)
    ensures kind { line.message_kind_of result.0 ≡ model.kind_of (message_of message.now) }
    ensures txn { result.1 ≡ txn_of (message_of message.now) }
{
    match message {
        Message::Lock { txn, .. } => (MessageKind::Lock, *txn),
        Message::Granted { txn, .. } => (MessageKind::Granted, *txn),
        Message::Denied { txn, .. } => (MessageKind::Denied, *txn),
        Message::Prepare { txn, .. } => (MessageKind::Prepare, *txn),
        Message::Yes { txn } => (MessageKind::Yes, *txn),
        Message::No { txn, .. } => (MessageKind::No, *txn),
        Message::Outcome { txn, .. } => (MessageKind::Outcome, *txn),
        Message::Ask { txn } => (MessageKind::Ask, *txn),
    }
}
