// From answers of an outbox to numbers.
ghost use Rattle.std.specs.Prelude.{◌≡◌};
ghost use Rattle.pv_c.specs.Faults.{fault_of, with_number};
ghost use Rattle.pv_c.specs.Outbox.{holding_number, journal_of, known_outcome, learning_number, learnt_outcome, opening_box_fault, opening_box_number, releasing_number, taken_output, taking_number};
ghost use Rattle.pv_c.specs.Status.{status_of, status_of_asked};

use crate::fault::Fault;
use crate::status::{
    AGAIN, BAD_CASES, BAD_RECORD, CLOSED, DONE, FULL, IN_USE, KNOWN, NO_MEMORY, NO_SITE, NOT_OURS,
    NOTHING, UNWRITTEN,
};
use pv_embed_outbox::{HoldFault, LearnFault, OpeningFault, ReleaseFault, TakeFault};
use pv_handle::{JournalInfo, Refused};

/// The number of an answer to an opening of an outbox.
pub fn status_of_box_opening(answer: Result<(), Refused<OpeningFault>>) -> u32
    ensures { result ≡ status_of opening_box_number answer }
{
    match answer {
        Ok(()) => DONE,
        Err(Refused::Closed) => CLOSED,
        Err(Refused::InUse) => IN_USE,
        Err(Refused::Engine(fault)) => opening_box_number(fault),
    }
}

// Why an outbox isn't opened.
fn opening_box_number(fault: OpeningFault) -> u32
    ensures { result ≡ opening_box_number fault }
{
    match fault {
        OpeningFault::NotOurs(_) => NOT_OURS,
        OpeningFault::BadRecord(_) => BAD_RECORD,
        OpeningFault::NoMemory => NO_MEMORY,
    }
}

/// Where an opening of an outbox is refused.
pub fn opening_box_fault_of(answer: Result<(), Refused<OpeningFault>>) -> Fault
    ensures { result ≡ fault_of opening_box_fault answer }
{
    match answer {
        Err(Refused::Engine(fault)) => opening_box_fault(fault),
        Ok(()) | Err(Refused::Closed) | Err(Refused::InUse) => at_number(0),
    }
}

// The place in the journal, or the record.
fn opening_box_fault(fault: OpeningFault) -> Fault
    ensures { result ≡ opening_box_fault fault }
{
    match fault {
        OpeningFault::NotOurs(place) => at_number(place),
        OpeningFault::BadRecord(index) => at_number(index),
        OpeningFault::NoMemory => at_number(0),
    }
}

// A place or an index.
fn at_number(number: u64) -> Fault
    ensures { result ≡ with_number number }
{
    Fault {
        line: 0,
        column: 0,
        number,
    }
}

/// The number of an answer to an output that is to be held.
pub fn status_of_holding(answer: Result<(), Refused<HoldFault>>) -> u32
    ensures { result ≡ status_of holding_number answer }
{
    match answer {
        Ok(()) => DONE,
        Err(Refused::Closed) => CLOSED,
        Err(Refused::InUse) => IN_USE,
        Err(Refused::Engine(fault)) => holding_number(fault),
    }
}

// Why an output isn't held.
fn holding_number(fault: HoldFault) -> u32
    ensures { result ≡ holding_number fault }
{
    match fault {
        HoldFault::BadCases => BAD_CASES,
        HoldFault::Unwritten => UNWRITTEN,
        HoldFault::Again => AGAIN,
        HoldFault::Full(_) => FULL,
        HoldFault::NoMemory => NO_MEMORY,
    }
}

/// The number of an answer to an outcome that is to be learnt.
pub fn status_of_learning(answer: Result<(), Refused<LearnFault>>) -> u32
    ensures { result ≡ status_of learning_number answer }
{
    match answer {
        Ok(()) => DONE,
        Err(Refused::Closed) => CLOSED,
        Err(Refused::InUse) => IN_USE,
        Err(Refused::Engine(fault)) => learning_number(fault),
    }
}

// Why an outcome isn't learnt.
fn learning_number(fault: LearnFault) -> u32
    ensures { result ≡ learning_number fault }
{
    match fault {
        LearnFault::NoSite => NO_SITE,
        LearnFault::Unwritten => UNWRITTEN,
        LearnFault::Known(_) => KNOWN,
        LearnFault::Full(_) => FULL,
        LearnFault::NoMemory => NO_MEMORY,
    }
}

/// The number of the outcome that was learnt before, and 0 where none is told.
pub fn learnt_outcome(answer: Result<(), Refused<LearnFault>>) -> u32
    ensures { result ≡ learnt_outcome answer }
{
    match answer {
        Ok(()) | Err(Refused::Closed) | Err(Refused::InUse) => 0,
        Err(Refused::Engine(fault)) => known_outcome(fault),
    }
}

// The number of the outcome that is known, if that is the cause.
fn known_outcome(fault: LearnFault) -> u32
    ensures { result ≡ known_outcome fault }
{
    match fault {
        LearnFault::Known(commits) => { if commits { 1 } else { 2 } }
        LearnFault::NoSite | LearnFault::Unwritten | LearnFault::Full(_) | LearnFault::NoMemory =>
            0,
    }
}

/// The number of an answer to a release.
pub fn status_of_releasing(answer: Result<(), Refused<ReleaseFault>>) -> u32
    ensures { result ≡ status_of releasing_number answer }
{
    match answer {
        Ok(()) => DONE,
        Err(Refused::Closed) => CLOSED,
        Err(Refused::InUse) => IN_USE,
        Err(Refused::Engine(fault)) => releasing_number(fault),
    }
}

// Why no output is released.
fn releasing_number(fault: ReleaseFault) -> u32
    ensures { result ≡ releasing_number fault }
{
    match fault {
        ReleaseFault::NoneReady => NOTHING,
        ReleaseFault::Full(_) => FULL,
        ReleaseFault::NoMemory => NO_MEMORY,
    }
}

/// The number of an answer to a taking.
pub fn status_of_taking(answer: Result<u32, Refused<TakeFault>>) -> u32
    ensures { result ≡ status_of taking_number answer }
{
    match answer {
        Ok(_) => DONE,
        Err(Refused::Closed) => CLOSED,
        Err(Refused::InUse) => IN_USE,
        Err(Refused::Engine(fault)) => taking_number(fault),
    }
}

// Why no output is taken.
fn taking_number(fault: TakeFault) -> u32
    ensures { result ≡ taking_number fault }
{
    match fault {
        TakeFault::Nothing => NOTHING,
        TakeFault::Unwritten => UNWRITTEN,
    }
}

/// The output that is taken, and 0 where none is.
pub fn taken_output(answer: Result<u32, Refused<TakeFault>>) -> u32
    ensures { result ≡ taken_output answer }
{
    match answer {
        Ok(output) => output,
        Err(_) => 0,
    }
}

/// What is told of a journal, and zeroes of none.
pub fn journal_of(answer: Option<JournalInfo>) -> JournalInfo
    ensures { result ≡ journal_of answer }
{
    match answer {
        Some(info) => info,
        None => JournalInfo {
            stored: 0,
            asked: 0,
            limit: 0,
        },
    }
}

/// The number of a question of a journal's length.
pub fn status_of_journal(answer: Option<JournalInfo>) -> u32
    ensures { result ≡ status_of_asked answer }
{
    match answer {
        Some(_) => DONE,
        None => CLOSED,
    }
}
