// Answers that may depend on outcomes: whether there is one alone, and all of them.
ghost use Rattle.std.specs.Prelude.{◌≡◌, ◌++◌, OnOk};
ghost use Rattle.std.specs.Fmt.{signed_decimal};
ghost use Rattle.pv_model.specs.ReplyText as model;
ghost use Rattle.pv_base.specs.declared.reply.Reply.TheVariants.{Declined};
ghost use Rattle.pv_protocol.specs.LineText.{answers_text, certainty, spaced};
ghost use Rattle.pv_report.specs.StillHeld.{StillHeld};

use crate::pieces::{push_signed, push_words};
use pv_ast::{Decline, Reply};
use pv_base::NoMemory;

// `certain` or `possible`, and the replies.
pub(crate) fn push_replies(text: &mut Vec<u8>, replies: &[Reply]) -> Result<(), NoMemory>
    ensures text { OnOk result (text.new.items ≡ text.old.items ++ answers_text model.reply_text replies.now) }
    ensures held { StillHeld text.old.items text.new.items }
{
    text.extend_from_slice(certainty(replies))?;
    push_each_reply(text, replies)
}

// `certain` or `possible`, and the sums.
pub(crate) fn push_sums(text: &mut Vec<u8>, sums: &[i128]) -> Result<(), NoMemory>
    ensures text { OnOk result (text.new.items ≡ text.old.items ++ answers_text signed_decimal sums.now) }
    ensures held { StillHeld text.old.items text.new.items }
{
    text.extend_from_slice(certainty(sums))?;
    push_each_sum(text, sums)
}

// One possible answer is certain.
fn certainty<A>(answers: &[A]) -> &'static [u8]
    ensures { result.now ≡ certainty answers.now }
{
    match answers {
        [] => b" possible",
        [_] => b" certain",
        [_, _, ..] => b" possible",
    }
}

// Each reply, with a space before it.
fn push_each_reply(text: &mut Vec<u8>, replies: &[Reply]) -> Result<(), NoMemory>
    ensures text { OnOk result (text.new.items ≡ text.old.items ++ spaced model.reply_text replies.now) }
    ensures held { StillHeld text.old.items text.new.items }
{
    for reply in replies {
        text.extend_from_slice(b" ")?;
        push_reply(text, *reply)?;
    }
    Ok(())
}

// Each sum, with a space before it.
fn push_each_sum(text: &mut Vec<u8>, sums: &[i128]) -> Result<(), NoMemory>
    ensures text { OnOk result (text.new.items ≡ text.old.items ++ spaced signed_decimal sums.now) }
    ensures held { StillHeld text.old.items text.new.items }
{
    for sum in sums {
        text.extend_from_slice(b" ")?;
        push_signed(text, *sum)?;
    }
    Ok(())
}

// One reply.
fn push_reply(text: &mut Vec<u8>, reply: Reply) -> Result<(), NoMemory>
    ensures text { OnOk result (text.new.items ≡ text.old.items ++ model.reply_text reply) }
    ensures held { StillHeld text.old.items text.new.items }
{
    match reply {
        Reply::Value(value) => push_signed(text, value as i128),
        Reply::Nothing => push_words(text, b"nothing"),
        Reply::Declined(decline) => push_words(text, decline_text(decline)),
    }
}

// Why a program declined.
pub(crate) fn decline_text(decline: Decline) -> &'static [u8]
    ensures { result.now ≡ model.reply_text (Declined decline) }
{
    match decline {
        Decline::Require => b"declined-require",
        Decline::Overflow => b"declined-overflow",
        Decline::ZeroDivisor => b"declined-zero-divisor",
    }
}
