// A run: each event's lines are written when the event is done, in a trace behind the line of the schedule that it is.
ghost use Rattle.std.specs.Prelude.{◌≡◌, ◌≢◌, ◌-◌, ◌≤◌, ◌++◌, All, List, IfOk, None, Ok, OnOk, drop, length, map, take};
ghost use Rattle.pv_base.specs.declared.limits.TheConstants.{MAX_SITES};
ghost use Rattle.pv_run.specs.Forms.{lines_in};
ghost use Rattle.pv_run.specs.InputAnswers.{within_limit, written_within};
ghost use Rattle.pv_run.specs.KeptDisks.{KeepsSites, last_world};
ghost use Rattle.pv_run.specs.Traced.{event_text, said_in, said_texts};
ghost use Rattle.pv_run.specs.WriteEndView.{IsWriteFault};
ghost use Rattle.pv_io.specs.SinkEffects.{WritesAll};
ghost use Rattle.pv_model.specs.Schedule.{significant};
ghost use Rattle.pv_protocol.specs.State.{Site};
ghost use Rattle.pv_protocol.specs.WellFormed.{IsWellFormed};
ghost use Rattle.pv_report.specs.NamesOnlyItems.{NamesOnlyItems};
ghost use Rattle.pv_script.specs.LineView.{line_of};
ghost use Rattle.pv_script.specs.ScheduleView.{HasPlan, event_of, schedule_of};
ghost use Rattle.pv_world.specs.Disks.{HoldSites};

use crate::form::Form;
use crate::said::{push_front, push_next};
use crate::write_end::WriteEnd;
use pv_base::{Catalog, MAX_SENT, NoMemory, SiteId};
use pv_disk::{Bay, MemDisk};
use pv_io::{Sink, write_all};
use pv_script::{Line, Schedule};
use pv_world::{World, WorldError};
use std::alloc::Global;

/// Runs a schedule, and writes what it prints in this form, up to the event whose messages pass the limit on bytes, if there is one. The answer is
/// how many bytes all messages would have there, `None` where the limit isn't passed. Then the bay is given the disk of each site to keep, as the run left
/// it; else, and where the run was given up, the bay is as it was. `input` is the text of the schedule, whose lines a trace has too.
///
/// Each event has to be well formed over the schedule's catalog, as those of a text are, and to have the plan of its program. Takes time in proportion
/// to what is printed and what the events send and touch, and memory for the world and for the lines of one event.
///
/// - [`WriteEnd::WriteFault`]: the output failed.
/// - [`WriteEnd::NoMemory`]: there was no memory.
pub fn run<W: Sink, B: Bay>(
    alloc: Global,
    input: &[u8],
    schedule: &Schedule,
    form: Form,
    sink: &mut W,
    bay: &mut B,
) -> Result<Option<u64>, WriteEnd>
    requires well_formed { All (IsWellFormed schedule.now.catalog) (schedule_of schedule.now).events }
    requires plans { All (HasPlan schedule.now.catalog) schedule.now.events.items }
    ensures over { IfOk result (λ over. over ≡ (within_limit (schedule_of schedule.now)).over) }
    ensures writes { WritesAll W.Sink IsWriteFault sink.old sink.new (written_within form input.now (schedule_of schedule.now)) result }
    ensures kept { result ≡ Ok None → KeepsSites B.model bay.old bay.new (last_world (schedule_of schedule.now)).sites }
    ensures alone { result ≢ Ok None → bay.new ≡ bay.old }
{
    let mut world = World::new(alloc, &schedule.catalog, MAX_SENT)?;
    let mut text = Vec::new(alloc);
    let all = said_in(form, input);
    let mut said = write_front(all, schedule.events.len(), &mut text, sink)?;
    for event in &schedule.events {
        match world.step(event) {
            Ok(lines) => {
                said = write_event(said, &lines, form, &schedule.catalog, &mut text, sink)?;
            }
            Err(WorldError::SentLimit(total)) => return Ok(Some(total)),
            Err(WorldError::NoMemory) => return Err(WriteEnd::NoMemory),
        }
    }
    keep_all(world.close(), bay);
    Ok(None)
}

// The bay is given the disks of sites to keep, by the sites' numbers.
fn keep_all<B: Bay>(disks: Vec<MemDisk>, bay: &mut B)
    requires { length disks.items ≤ MAX_SITES }
    ensures { (sites : List Site) → HoldSites disks.items sites → KeepsSites B.model bay.old bay.new sites }
{
    let mut site = 0;
    for disk in disks {
        bay.keep(SiteId(site), disk);
        site += 1;
    }
}

// The text whose lines are written too: that of a schedule in a trace.
fn said_in(form: Form, input: &[u8]) -> &[u8]
    ensures { significant result.now ≡ said_in form input.now }
{
    match form {
        Form::Text => &[],
        Form::Json => &[],
        Form::Trace => input,
    }
}

// All lines of the text but the last ones, as many as these, in one write, with a buffer for them. The answer is the text behind them.
fn write_front<'a, W: Sink>(
    said: &'a [u8],
    last: usize,
    text: &mut Vec<u8>,
    sink: &mut W,
) -> Result<&'a [u8], WriteEnd>
    ensures writes { WritesAll W.Sink IsWriteFault sink.old sink.new (said_texts (take (length (significant said.now) - last) (significant said.now))) result }
    ensures rest { IfOk result (λ rest. significant rest.now ≡ drop (length (significant said.now) - last) (significant said.now)) }
{
    text.clear();
    let rest = push_front(text, said, last)?;
    write_all(sink, text)?;
    Ok(rest)
}

// The next line of the text, where there is one, and an event's lines, in one write, with a buffer for them. The answer is the text behind it.
fn write_event<'a, W: Sink>(
    said: &'a [u8],
    lines: &[Line],
    form: Form,
    catalog: &Catalog,
    text: &mut Vec<u8>,
    sink: &mut W,
) -> Result<&'a [u8], WriteEnd>
    requires { All (NamesOnlyItems catalog.now) (map line_of lines.now) }
    ensures writes { WritesAll W.Sink IsWriteFault sink.old sink.new (event_text form catalog.now (significant said.now) (map line_of lines.now)) result }
    ensures rest { IfOk result (λ rest. significant rest.now ≡ drop 1 (significant said.now)) }
{
    text.clear();
    let rest = push_next(text, said)?;
    push_lines(text, lines, form, catalog)?;
    write_all(sink, text)?;
    Ok(rest)
}

// The lines come after what the buffer holds. After an error its content is of no use.
fn push_lines(
    text: &mut Vec<u8>,
    lines: &[Line],
    form: Form,
    catalog: &Catalog,
) -> Result<(), NoMemory>
    requires { All (NamesOnlyItems catalog.now) (map line_of lines.now) }
    ensures { OnOk result (text.new.items ≡ text.old.items ++ lines_in form catalog.now (map line_of lines.now)) }
{
    for line in lines {
        form.push_line(text, line, catalog)?;
    }
    Ok(())
}
