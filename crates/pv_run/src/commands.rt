// The commands that read a schedule and run it, or write one that is made, and with which status they end.
ghost use Rattle.std.specs.Prelude.{◌≡◌};
ghost use Rattle.pv_run.specs.Ends.{EndsMake, EndsRun};
ghost use Rattle.pv_run.specs.Statuses.{big_status, make_status, run_status, unread_status};

use crate::answers::{promises_are_kept, run_text};
use crate::form::Form;
use crate::status::Status;
use crate::text_end::{LongText, TextEnd};
use crate::write_end::WriteEnd;
use pv_base::MAX_INPUT;
use pv_disk::Bay;
use pv_io::{ReadEnd, Sink, Source, read_all, write_all};
use pv_script::make;
use std::alloc::Global;

/// Reads a schedule from the source to its end, runs it, and writes what that prints in this form, each event's lines when the event is done, or the first
/// line at fault. Takes time in proportion to the input, what is printed and what the events send and touch. At [`TextEnd::Done`] the bay is given the disk
/// of each site to keep, as the run left it.
///
/// An error is why the input wasn't read. Then nothing was written.
pub fn read_and_run<R: Source, W: Sink, B: Bay>(
    alloc: Global,
    form: Form,
    source: &mut R,
    sink: &mut W,
    bay: &mut B,
) -> Result<TextEnd, ReadEnd>
    ensures { EndsRun R.Source W.Sink B.model form source.old source.new sink.old sink.new bay.old bay.new result }
{
    promises_are_kept();
    match read_all(alloc, source, MAX_INPUT) {
        Ok(input) => Ok(run_text(alloc, &input, form, sink, bay)),
        Err(why) => Err(why),
    }
}

/// Writes the long schedule of this number.
///
/// - [`WriteEnd::WriteFault`]: the output failed.
/// - [`WriteEnd::NoMemory`]: there was no memory for it.
pub fn write_made<W: Sink>(alloc: Global, number: u32, sink: &mut W) -> Result<(), WriteEnd>
    ensures { EndsMake W.Sink number sink.old sink.new result }
{
    let text = make(alloc, number)?;
    Ok(write_all(sink, &text)?)
}

/// The status of `run` and `json`, by how [`read_and_run`] ended.
pub fn status_of_run(ended: Result<TextEnd, ReadEnd>) -> Status
    ensures { result ≡ run_status ended }
{
    match ended {
        Ok(end) => end.status(),
        Err(why) => status_of_unread(why),
    }
}

/// The status of `make`, by how [`write_made`] ended.
pub fn status_of_make(ended: Result<(), WriteEnd>) -> Status
    ensures { result ≡ make_status ended }
{
    match ended {
        Ok(()) => Status::Done,
        Err(WriteEnd::WriteFault) => Status::WriteFault,
        Err(WriteEnd::NoMemory) => Status::NoMemory,
    }
}

/// The status of `big`, by how [`write_summary_of_number`](crate::write_summary_of_number) ended.
pub fn status_of_big(ended: Result<TextEnd, LongText>) -> Status
    ensures { result ≡ big_status ended }
{
    match ended {
        Ok(end) => end.status(),
        Err(LongText) => Status::TooLong,
    }
}

/// The status of a command whose input wasn't read.
pub fn status_of_unread(why: ReadEnd) -> Status
    ensures { result ≡ unread_status why }
{
    match why {
        ReadEnd::Failed => Status::ReadFault,
        ReadEnd::TooLong => Status::TooLong,
        ReadEnd::NoMemory => Status::NoMemory,
    }
}
