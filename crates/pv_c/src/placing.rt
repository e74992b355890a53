// Calls that say where what C gave is at fault.
ghost use Rattle.std.specs.Prelude.{◌≡◌, None, IfSome};
ghost use Rattle.pv_handle.specs.ByteState.{OpensBytes};
ghost use Rattle.pv_handle.specs.Slot.{Calls, Opens};
ghost use Rattle.pv_handle.specs.Standing.{StandsReady};
ghost use Rattle.pv_handle.specs.Tagged.{SubmitsTagged};
ghost use Rattle.pv_c.specs.Causes.{opening_number, request_number};
ghost use Rattle.pv_c.specs.Faults.{AnswersAt, at_column, column_of, fault_of, no_fault, opening_fault, program_fault, request_fault, text_fault, with_number};

use crate::fault::Fault;
use crate::given_text::given;
use crate::numbers::{status_of_opening, status_of_request};
use pv_check::CheckError;
use pv_embed::{OpenFault, SubmitFault};
use pv_handle::{Refused, SiteSlot};
use pv_parse::ParseError;
use pv_script::LineCause;
use std::alloc::Global;

/// Opens a closed slot with a site that goes on from a journal, and says where it is refused.
#[unsafe(no_mangle)]
pub extern "C" fn polydb_site_open_at(
    alloc: Global,
    site: &mut SiteSlot,
    config: &[u8],
    me: u8,
    journal: &[u8],
    fault: &mut Fault,
) -> u32
    ensures opens { AnswersAt opening_number opening_fault result fault.new
        (Opens (OpensBytes config.now me journal.now) site.old.handle.site site.new.handle.site) }
    ensures stands { site.old.handle.site ≡ None → IfSome site.new.handle.site StandsReady }
{
    let answer = site.open(alloc, given(config), me, given(journal));
    *fault = opening_fault_of(answer);
    status_of_opening(answer)
}

/// A request; and it is said where it is refused.
#[unsafe(no_mangle)]
pub extern "C" fn polydb_site_submit_at(
    alloc: Global,
    site: &mut SiteSlot,
    text: &[u8],
    query: bool,
    fault: &mut Fault,
) -> u32
    ensures submits { AnswersAt request_number request_fault result fault.new
        (Calls (SubmitsTagged text.now query 0) site.old.handle.site site.new.handle.site) }
    ensures stands { IfSome site.new.handle.site StandsReady }
{
    let answer = site.submit(alloc, given(text), query, 0);
    *fault = request_fault_of(answer);
    status_of_request(answer)
}

// Where an opening is refused.
fn opening_fault_of(answer: Result<(), Refused<OpenFault>>) -> Fault
    ensures { result ≡ fault_of opening_fault answer }
{
    match answer {
        Err(Refused::Engine(fault)) => opening_fault(fault),
        Ok(()) | Err(Refused::Closed) | Err(Refused::InUse) => NO_FAULT,
    }
}

/// Where a request is refused.
pub fn request_fault_of(answer: Result<(), Refused<SubmitFault>>) -> Fault
    ensures { result ≡ fault_of request_fault answer }
{
    match answer {
        Err(Refused::Engine(fault)) => request_fault(fault),
        Ok(()) | Err(Refused::Closed) | Err(Refused::InUse) => NO_FAULT,
    }
}

// Nothing is told.
const NO_FAULT: Fault = Fault {
    line: 0,
    column: 0,
    number: 0,
};

// A column of a text.
fn at_column(column: u32) -> Fault
    ensures { result ≡ at_column column }
{
    Fault {
        line: 0,
        column,
        number: 0,
    }
}

// A place, an index or a count.
fn with_number(number: u64) -> Fault
    ensures { result ≡ with_number number }
{
    Fault {
        line: 0,
        column: 0,
        number,
    }
}

// Where the configuration or the journal is at fault.
fn opening_fault(fault: OpenFault) -> Fault
    ensures { result ≡ opening_fault fault }
{
    match fault {
        OpenFault::Malformed { line, cause } => Fault {
            line,
            column: column_of(cause),
            number: 0,
        },
        OpenFault::NotOurs(place) => with_number(place),
        OpenFault::BadRecord(index) => with_number(index),
        OpenFault::TooManyOutcomes(count) => with_number(count as u64),
        OpenFault::Full(length) => with_number(length),
        OpenFault::TooLong
        | OpenFault::HasEvents
        | OpenFault::NoSite
        | OpenFault::EpochsSpent
        | OpenFault::NoMemory => NO_FAULT,
    }
}

// The column of a line's program, where the cause has one.
fn column_of(cause: LineCause) -> u32
    ensures { result ≡ column_of cause }
{
    match cause {
        LineCause::ProgramColumn(column) => column,
        LineCause::UnknownName(column) => column,
        LineCause::TooDeep(column) => column,
        _ => 0,
    }
}

// Where a program's text is at fault, or why the program may not run.
fn request_fault(fault: SubmitFault) -> Fault
    ensures { result ≡ request_fault fault }
{
    match fault {
        SubmitFault::Text(error) => text_fault(error),
        SubmitFault::Program(error) => program_fault(error),
        SubmitFault::NoMemory => NO_FAULT,
    }
}

// Where a text is no program.
fn text_fault(error: ParseError) -> Fault
    ensures { result ≡ text_fault error }
{
    match error {
        ParseError::TooLarge(count) => with_number(count),
        ParseError::Malformed(column) => at_column(column),
        ParseError::UnknownName(column) => at_column(column),
        ParseError::TooDeep(column) => at_column(column),
        ParseError::NoMemory => NO_FAULT,
    }
}

// Why a program may not run.
fn program_fault(error: CheckError) -> Fault
    ensures { result ≡ program_fault error }
{
    match error {
        CheckError::TooManyItems(count) => with_number(count as u64),
        CheckError::NoItem | CheckError::Assigns | CheckError::NoReturn | CheckError::NoMemory => {
            NO_FAULT
        }
    }
}
