// How what happens is printed.
ghost use Rattle.std.specs.Prelude.{◌≡◌, ◌++◌, map, OnOk};
ghost use Rattle.pv_law_decisions.specs.Lines.{line_text, lines_text, numbered_text, told};
ghost use Rattle.pv_law_decisions.specs.Scene.{broken_line};
ghost use Rattle.pv_law_quorum.specs.Decider.{decided, full};
ghost use Rattle.pv_quorum.specs.Values.{lines_of};
ghost use Rattle.pv_quorum_run.specs.LineView.{line_of};

use pv_base::{NoMemory, TxnId, push_number, push_txn};
use pv_quorum::QuorumStep;

/// A line that a run prints.
#[derive(Clone, Copy, Debug, PartialEq, Eq)]
pub(crate) enum Line {
    /// A value is decided.
    Decided {
        /// The decider that says so.
        decider: u8,
        /// The transaction.
        txn: TxnId,
        /// Whether it commits.
        commits: bool,
    },
    /// No number is left for a ballot of the decider.
    Spent(u8),
    /// The log would be too long.
    Full {
        /// The decider.
        decider: u8,
        /// The length that its log would have.
        length: u64,
    },
    /// No message has this number.
    NoMessage(u64),
    /// The decider is down.
    Down(u8),
    /// It is up already.
    Up(u8),
    /// It has stopped.
    Stopped(u8),
    /// Its disk has failed.
    Fault(u8),
    /// It has started.
    Started(u8),
}

// The line of what fired at the decider's disk.
pub(crate) fn broken_line(decider: u8, stops: bool) -> Line
    ensures { line_of result ≡ broken_line decider stops }
{
    if stops {
        Line::Stopped(decider)
    } else {
        Line::Fault(decider)
    }
}

// The line comes after what the buffer holds. After an error its content is of no use.
#[tactic(auto, unfolding(pv_law_decisions::specs::Lines::line_text))]
pub(crate) fn push_line(text: &mut Vec<u8>, line: Line) -> Result<(), NoMemory>
    ensures { OnOk result (text.new.items ≡ text.old.items ++ line_text (line_of line)) }
{
    match line {
        Line::Decided {
            decider,
            txn,
            commits,
        } => push_decided(text, decider, txn, commits),
        Line::Spent(decider) => push_numbered(text, b"spent", u64::from(decider)),
        Line::Full { decider, length } => push_full(text, decider, length),
        Line::NoMessage(number) => push_numbered(text, b"no message", number),
        Line::Down(decider) => push_numbered(text, b"down", u64::from(decider)),
        Line::Up(decider) => push_numbered(text, b"up", u64::from(decider)),
        Line::Stopped(decider) => push_numbered(text, b"stopped", u64::from(decider)),
        Line::Fault(decider) => push_numbered(text, b"fault", u64::from(decider)),
        Line::Started(decider) => push_numbered(text, b"started", u64::from(decider)),
    }
}

// A word, and a number after it.
fn push_numbered(text: &mut Vec<u8>, word: &[u8], number: u64) -> Result<(), NoMemory>
    ensures { OnOk result (text.new.items ≡ text.old.items ++ numbered_text word.now number) }
{
    text.extend_from_slice(word)?;
    text.extend_from_slice(b" ")?;
    push_number(text, number)?;
    text.extend_from_slice(b"\n")?;
    Ok(())
}

// That a value is decided.
#[tactic(auto, unfolding(pv_law_decisions::specs::Lines::line_text))]
fn push_decided(text: &mut Vec<u8>, decider: u8, txn: TxnId, commits: bool) -> Result<(), NoMemory>
    ensures { OnOk result (text.new.items ≡ text.old.items ++ line_text (told (decided decider txn commits))) }
{
    text.extend_from_slice(b"decided ")?;
    push_number(text, u64::from(decider))?;
    text.extend_from_slice(b" ")?;
    push_txn(text, txn)?;
    text.extend_from_slice(if commits {
        b" yes\n".as_slice()
    } else {
        b" no\n".as_slice()
    })?;
    Ok(())
}

// That a log would be too long.
#[tactic(auto, unfolding(pv_law_decisions::specs::Lines::line_text))]
fn push_full(text: &mut Vec<u8>, decider: u8, length: u64) -> Result<(), NoMemory>
    ensures { OnOk result (text.new.items ≡ text.old.items ++ line_text (told (full decider length))) }
{
    text.extend_from_slice(b"full ")?;
    push_number(text, u64::from(decider))?;
    text.extend_from_slice(b" ")?;
    push_number(text, length)?;
    text.extend_from_slice(b"\n")?;
    Ok(())
}

// What the decider's step reports comes after what the buffer holds.
pub(crate) fn push_step(text: &mut Vec<u8>, me: u8, step: &QuorumStep) -> Result<(), NoMemory>
    ensures { OnOk result (text.new.items ≡ text.old.items ++ lines_text (map told (lines_of me step.now))) }
{
    if let Some((txn, commits)) = step.decided {
        push_line(
            text,
            Line::Decided {
                decider: me,
                txn,
                commits,
            },
        )?;
    }
    if let Some(length) = step.full {
        push_line(
            text,
            Line::Full {
                decider: me,
                length,
            },
        )?;
    }
    if step.spent {
        push_line(text, Line::Spent(me))?;
    }
    Ok(())
}
