// What an event of a script prints.
ghost use Rattle.std.specs.Prelude.{◌≡◌, ◌++◌, OnOk, codes};
ghost use Rattle.pv_base.specs.Txn.{txn_text};
ghost use Rattle.pv_outbox_run.specs.ToldText.{broke, numbered_line, outcome_text, told_text};

use pv_base::{NoMemory, TxnId, push_number, push_txn};

/// A line that an event of a script prints.
#[derive(Clone, Copy, Debug, PartialEq, Eq)]
pub enum Told {
    /// The output is held.
    Held(u32),
    /// The output was held before.
    Again(u32),
    /// The outcome of the transaction is learnt.
    Learnt(TxnId),
    /// The outcome of the transaction was learnt before, and this is it.
    Known(TxnId, bool),
    /// The output is released.
    Out(u32),
    /// No output is ready.
    Nothing,
    /// With the record the log would have this length, above its limit.
    Full(u64),
    /// The process has stopped.
    Stopped,
    /// A write or a sync of the disk has failed, so the outbox is down.
    Fault,
    /// The outbox is up, so it isn't started.
    Up,
    /// The outbox is down, so it takes nothing.
    Down,
    /// The outbox is opened.
    Started,
}

/// What is told where a write or a sync fired, by whether that stands for a stop.
pub(crate) fn broken(stops: bool) -> Told
    ensures { result ≡ broke stops }
{
    if stops { Told::Stopped } else { Told::Fault }
}

/// Puts the line, with its line feed, after what the buffer holds.
pub(crate) fn push_told(text: &mut Vec<u8>, told: Told) -> Result<(), NoMemory>
    ensures { OnOk result (text.new.items ≡ text.old.items ++ told_text told) }
{
    match told {
        Told::Held(output) => push_numbered(text, b"held ", u64::from(output)),
        Told::Again(output) => push_numbered(text, b"again ", u64::from(output)),
        Told::Learnt(txn) => push_learnt(text, txn),
        Told::Known(txn, commits) => push_known(text, txn, commits),
        Told::Out(output) => push_numbered(text, b"out ", u64::from(output)),
        Told::Nothing => push(text, b"none\n"),
        Told::Full(length) => push_numbered(text, b"full ", length),
        Told::Stopped => push(text, b"stopped\n"),
        Told::Fault => push(text, b"fault\n"),
        Told::Up => push(text, b"up\n"),
        Told::Down => push(text, b"down\n"),
        Told::Started => push(text, b"started\n"),
    }
}

// Puts these bytes there.
fn push(text: &mut Vec<u8>, bytes: &[u8]) -> Result<(), NoMemory>
    ensures { OnOk result (text.new.items ≡ text.old.items ++ bytes.now) }
{
    text.extend_from_slice(bytes)?;
    Ok(())
}

// Puts a line of a word and a number there.
fn push_numbered(text: &mut Vec<u8>, word: &[u8], number: u64) -> Result<(), NoMemory>
    ensures { OnOk result (text.new.items ≡ text.old.items ++ numbered_line word.now number) }
{
    text.extend_from_slice(word)?;
    push_number(text, number)?;
    text.push(b'\n')?;
    Ok(())
}

// Puts `learnt T` there.
fn push_learnt(text: &mut Vec<u8>, txn: TxnId) -> Result<(), NoMemory>
    ensures { OnOk result (text.new.items ≡ text.old.items ++ (codes "learnt " ++ (txn_text txn ++ codes "\n"))) }
{
    text.extend_from_slice(b"learnt ")?;
    push_txn(text, txn)?;
    text.push(b'\n')?;
    Ok(())
}

// Puts `known T yes` or `known T no` there.
fn push_known(text: &mut Vec<u8>, txn: TxnId, commits: bool) -> Result<(), NoMemory>
    ensures { OnOk result (text.new.items ≡ text.old.items ++ (codes "known " ++ (txn_text txn ++ outcome_text commits))) }
{
    text.extend_from_slice(b"known ")?;
    push_txn(text, txn)?;
    push_outcome(text, commits)
}

// Puts the outcome there at which `known T` ends.
fn push_outcome(text: &mut Vec<u8>, commits: bool) -> Result<(), NoMemory>
    ensures { OnOk result (text.new.items ≡ text.old.items ++ outcome_text commits) }
{
    if commits {
        return push(text, b" yes\n");
    }
    push(text, b" no\n")
}
