// From answers to numbers.
ghost use Rattle.std.specs.Prelude.{◌≡◌};
ghost use Rattle.pv_c.specs.Causes.{growth_number, memory_number, message_number, opening_number, request_number, value_number, world_number, write_number};
ghost use Rattle.pv_c.specs.Status.{numbers_of_asked, numbers_of_given, numbers_of_read, status_of};

use crate::given_numbers::Numbers;
use crate::status::{
    BAD_MESSAGE, BAD_PROGRAM, BAD_RECORD, BAD_TEXT, BROKEN_OFF, CLOSED, DONE, ENDED, EPOCHS_SPENT,
    FULL, HAS_EVENTS, IN_USE, MALFORMED, NO_MEMORY, NO_SENDER, NO_SITE, NOT_GROWN, NOT_HERE,
    NOT_NEXT, NOT_ONE_EVENT, NOT_OURS, NOTHING, SENT_LIMIT, TOO_LONG, TOO_MANY_OUTCOMES, TOO_SMALL,
    UNKNOWN_NAME, UNWRITTEN,
};
use pv_base::NoMemory;
use pv_embed::{OpenFault, ReceiveFault, SubmitFault};
use pv_embed_world::WorldFault;
use pv_growth::ConfigFault;
use pv_handle::{Given, NotNext, Refused, ValueFault};

/// The number of an answer to an opening of a site.
pub fn status_of_opening(answer: Result<(), Refused<OpenFault>>) -> u32
    ensures { result ≡ status_of opening_number answer }
{
    match answer {
        Ok(()) => DONE,
        Err(Refused::Closed) => CLOSED,
        Err(Refused::InUse) => IN_USE,
        Err(Refused::Engine(fault)) => opening_number(fault),
    }
}

/// The number of an answer to a request.
pub fn status_of_request(answer: Result<(), Refused<SubmitFault>>) -> u32
    ensures { result ≡ status_of request_number answer }
{
    match answer {
        Ok(()) => DONE,
        Err(Refused::Closed) => CLOSED,
        Err(Refused::InUse) => IN_USE,
        Err(Refused::Engine(fault)) => request_number(fault),
    }
}

/// The number of an answer to a message.
pub fn status_of_message(answer: Result<(), Refused<ReceiveFault>>) -> u32
    ensures { result ≡ status_of message_number answer }
{
    match answer {
        Ok(()) => DONE,
        Err(Refused::Closed) => CLOSED,
        Err(Refused::InUse) => IN_USE,
        Err(Refused::Engine(fault)) => message_number(fault),
    }
}

/// The number of an answer to a tick.
pub fn status_of_tick(answer: Result<(), Refused<NoMemory>>) -> u32
    ensures { result ≡ status_of memory_number answer }
{
    match answer {
        Ok(()) => DONE,
        Err(Refused::Closed) => CLOSED,
        Err(Refused::InUse) => IN_USE,
        Err(Refused::Engine(_)) => NO_MEMORY,
    }
}

/// The number of an answer to a write that was done.
pub fn status_of_write(answer: Result<(), Refused<NotNext>>) -> u32
    ensures { result ≡ status_of write_number answer }
{
    match answer {
        Ok(()) => DONE,
        Err(Refused::Closed) => CLOSED,
        Err(Refused::InUse) => IN_USE,
        Err(Refused::Engine(_)) => NOT_NEXT,
    }
}

/// The number of an answer of a world.
pub fn status_of_world(answer: Result<(), Refused<WorldFault>>) -> u32
    ensures { result ≡ status_of world_number answer }
{
    match answer {
        Ok(()) => DONE,
        Err(Refused::Closed) => CLOSED,
        Err(Refused::InUse) => IN_USE,
        Err(Refused::Engine(fault)) => world_number(fault),
    }
}

/// The number of an answer to whether a configuration grows.
pub fn status_of_growth(answer: Result<bool, ConfigFault>) -> u32
    ensures { result ≡ growth_number answer }
{
    match answer {
        Ok(true) => DONE,
        Ok(false) => NOT_GROWN,
        Err(ConfigFault::TooLong) => TOO_LONG,
        Err(ConfigFault::Malformed { .. }) => MALFORMED,
        Err(ConfigFault::HasEvents) => HAS_EVENTS,
        Err(ConfigFault::NoMemory) => NO_MEMORY,
    }
}

/// The numbers of bytes that only a closed slot refuses.
pub fn numbers_of_asked(answer: Option<Given>) -> Numbers
    ensures { result ≡ numbers_of_asked answer }
{
    match answer {
        Some(given) => numbers_of_given(given),
        None => Numbers {
            status: CLOSED,
            count: 0,
            to: 0,
        },
    }
}

/// The numbers of what a site lets out.
pub fn numbers_of_taken(answer: Result<Given, Refused<NoMemory>>) -> Numbers
    ensures { result ≡ numbers_of_read memory_number answer }
{
    let status = match answer {
        Ok(given) => return numbers_of_given(given),
        Err(Refused::Closed) => CLOSED,
        Err(Refused::InUse) => IN_USE,
        Err(Refused::Engine(_)) => NO_MEMORY,
    };
    Numbers {
        status,
        count: 0,
        to: 0,
    }
}

/// The numbers of an item's value.
pub fn numbers_of_value(answer: Result<Given, Refused<ValueFault>>) -> Numbers
    ensures { result ≡ numbers_of_read value_number answer }
{
    let status = match answer {
        Ok(given) => return numbers_of_given(given),
        Err(Refused::Closed) => CLOSED,
        Err(Refused::InUse) => IN_USE,
        Err(Refused::Engine(fault)) => value_number(fault),
    };
    Numbers {
        status,
        count: 0,
        to: 0,
    }
}

// The numbers of bytes that were asked for.
fn numbers_of_given(given: Given) -> Numbers
    ensures { result ≡ numbers_of_given given }
{
    match given {
        Given::Nothing => Numbers {
            status: NOTHING,
            count: 0,
            to: 0,
        },
        Given::Bytes { count, to } => Numbers {
            status: DONE,
            count,
            to,
        },
        Given::TooSmall { needed } => Numbers {
            status: TOO_SMALL,
            count: needed,
            to: 0,
        },
    }
}

// Why a site isn't opened.
fn opening_number(fault: OpenFault) -> u32
    ensures { result ≡ opening_number fault }
{
    match fault {
        OpenFault::TooLong => TOO_LONG,
        OpenFault::Malformed { .. } => MALFORMED,
        OpenFault::HasEvents => HAS_EVENTS,
        OpenFault::NoSite => NO_SITE,
        OpenFault::NotOurs(_) => NOT_OURS,
        OpenFault::BadRecord(_) => BAD_RECORD,
        OpenFault::TooManyOutcomes(_) => TOO_MANY_OUTCOMES,
        OpenFault::EpochsSpent => EPOCHS_SPENT,
        OpenFault::Full(_) => FULL,
        OpenFault::NoMemory => NO_MEMORY,
    }
}

// Why a request isn't taken.
fn request_number(fault: SubmitFault) -> u32
    ensures { result ≡ request_number fault }
{
    match fault {
        SubmitFault::Text(_) => BAD_TEXT,
        SubmitFault::Program(_) => BAD_PROGRAM,
        SubmitFault::NoMemory => NO_MEMORY,
    }
}

// Why a message isn't taken.
fn message_number(fault: ReceiveFault) -> u32
    ensures { result ≡ message_number fault }
{
    match fault {
        ReceiveFault::Malformed(_) => BAD_MESSAGE,
        ReceiveFault::NotForHere => NOT_HERE,
        ReceiveFault::NoSender => NO_SENDER,
        ReceiveFault::NoMemory => NO_MEMORY,
    }
}

// Why an item's value isn't given.
fn value_number(fault: ValueFault) -> u32
    ensures { result ≡ value_number fault }
{
    match fault {
        ValueFault::UnknownName => UNKNOWN_NAME,
        ValueFault::NotHere => NOT_HERE,
        ValueFault::Unwritten => UNWRITTEN,
        ValueFault::NoMemory => NO_MEMORY,
    }
}

// Why a world doesn't do what is asked.
fn world_number(fault: WorldFault) -> u32
    ensures { result ≡ world_number fault }
{
    match fault {
        WorldFault::TooLong => TOO_LONG,
        WorldFault::Malformed { .. } => MALFORMED,
        WorldFault::HasEvents => HAS_EVENTS,
        WorldFault::NotOneEvent => NOT_ONE_EVENT,
        WorldFault::SentLimit(_) => SENT_LIMIT,
        WorldFault::NoMemory => NO_MEMORY,
        WorldFault::BrokenOff => BROKEN_OFF,
        WorldFault::Closed => ENDED,
    }
}
