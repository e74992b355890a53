// How many bytes a message takes, so that room is made for them at once.
ghost use Rattle.std.specs.Prelude.{◌≡◌, ◌<◌, ◌^◌};
ghost use Rattle.pv_format.specs.Length.{body_length, cause_length};
ghost use Rattle.pv_wire.specs.Values.{cause_of, message_of};

use crate::{Message, NoCause};
use pv_replay::reads_length;

/// How many bytes a message takes after its transaction.
pub fn body_length(message: &Message) -> usize
    requires { body_length (message_of message.now) < 2 ^ 34 }
    ensures length { result ≡ body_length (message_of message.now) }
    ensures small { result < 2 ^ 34 }
{
    match message {
        Message::Lock { wants, .. } => 1 + 5 * wants.len(),
        Message::Granted { values, .. } => 8 + reads_length(values),
        Message::Denied { .. } => 13,
        Message::Prepare { writes, .. } => 8 + reads_length(writes),
        Message::Yes { .. } | Message::Ask { .. } => 0,
        Message::No { cause, .. } => cause_length(*cause),
        Message::Outcome { .. } => 1,
    }
}

// How many bytes a cause takes.
fn cause_length(cause: NoCause) -> usize
    ensures { result ≡ cause_length (cause_of cause) }
{
    match cause {
        NoCause::GrantLost => 1,
        NoCause::JournalFull(_) => 9,
    }
}
