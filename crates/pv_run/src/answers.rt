// What is answered to a text in memory that is to be a schedule: its run, written event by event, or the summary of that.
ghost use Rattle.std.specs.Prelude.{◌≡◌, ◌≢◌, ℕ, ◌≤◌, ◌⊎◌, List, [], All, is_ok, length, if◌then◌else◌};
ghost use Rattle.pv_io.specs.SinkEffects.{HasFailed, WritesAll, WritesPrefix};
ghost use Rattle.pv_model.specs.Events as model;
ghost use Rattle.pv_model.specs.Schedule.{IsSchedule};
ghost use Rattle.pv_protocol.specs.WellFormed.{IsWellFormed};
ghost use Rattle.pv_run.specs.Ends.{AnswersRun, EndsBig};
ghost use Rattle.pv_run.specs.Headline.{KeepsPromises};
ghost use Rattle.pv_run.specs.InputAnswers.{Answers, IsRunAnswer, IsSummaryAnswer, fault_text, written_of, written_within};
ghost use Rattle.pv_run.specs.KeptDisks.{KeepsSites, last_world};
ghost use Rattle.pv_run.specs.Statuses as ends;
ghost use Rattle.pv_run.specs.Statuses.{text_status};
ghost use Rattle.pv_run.specs.Summary.{summary_of};
ghost use Rattle.pv_run.specs.Traced.{IsTraced, trace_of};
ghost use Rattle.pv_run.specs.WriteEndView.{IsWriteFault};
ghost use Rattle.pv_run.specs.declared.status.Status.{Status};
ghost use Rattle.pv_script.specs.ScheduleView.{HasPlan, schedule_of};
ghost use Rattle.pv_script.specs.ScriptErrors.{line_cause_of};
ghost use Rattle.pv_site.specs.SiteState.{setup_of};

use crate::form::Form;
use crate::printed::run_to_lines;
use crate::running::run;
use crate::summary::sum_up;
use crate::text_end::{LongText, TextEnd};
use crate::write_end::WriteEnd;
use pv_base::{Failed, MAX_INPUT};
use pv_disk::Bay;
use pv_io::{Sink, write_all};
use pv_law_answers::{committed_fit, reports_show_each_readable, texts_agree, texts_answer};
use pv_law_refusals::texts_refuse_for_causes;
use pv_law_world::schedules_are_well_formed;
use pv_script::{LineCause, Schedule, ScriptError, make, read_schedule};
use std::alloc::Global;

/// Runs the schedule that the text is, and writes what that prints in this form, a trace with the text's own lines, or the first line at fault. Takes time in proportion to the text,
/// what is printed and what the events send and touch. At [`TextEnd::Done`] the bay is given the disk of each site to keep, as the run left it.
pub fn run_text<W: Sink, B: Bay>(
    alloc: Global,
    input: &[u8],
    form: Form,
    sink: &mut W,
    bay: &mut B,
) -> TextEnd
    requires { length input.now ≤ MAX_INPUT }
    ensures answers { AnswersRun W.Sink B.model form sink.old sink.new bay.old bay.new (text_status result) input.now }
    ensures write_fault { result ≡ TextEnd.WriteFault → HasFailed W.Sink sink.old sink.new }
    ensures alone { result ≢ TextEnd.Done → bay.new ≡ bay.old }
{
    promises_are_kept();
    answer(alloc, input, form, sink, bay)
}

// What a run answers to the text.
fn answer<W: Sink, B: Bay>(
    alloc: Global,
    input: &[u8],
    form: Form,
    sink: &mut W,
    bay: &mut B,
) -> TextEnd
    requires { length input.now ≤ MAX_INPUT }
    ensures answered { Answers W.Sink (written_of form input.now) (written_within form input.now) input.now (text_status result) sink.old sink.new }
    ensures prefix { (status : Status) (output : List ℕ) → IsRunAnswer form input.now status output →
        WritesPrefix W.Sink sink.old sink.new output }
    ensures some { (status : Status) (output : List ℕ) → IsRunAnswer form input.now status output → result ≡ TextEnd.WriteFault → output ≢ [] }
    ensures write_fault { result ≡ TextEnd.WriteFault → HasFailed W.Sink sink.old sink.new }
    ensures kept { result ≡ TextEnd.Done → (schedule : model.Schedule) → IsSchedule input.now schedule →
        KeepsSites B.model bay.old bay.new (last_world schedule).sites }
    ensures alone { result ≢ TextEnd.Done → bay.new ≡ bay.old }
{
    schedules_are_well_formed();
    match read_schedule(alloc, input) {
        Ok(schedule) => end_of_run(run(alloc, input, &schedule, form, sink, bay)),
        Err(ScriptError::Malformed { line, cause }) => {
            end_of_refusal(refuse(alloc, line, cause, sink))
        }
        Err(ScriptError::NoMemory) => TextEnd::NoMemory,
    }
}

/// Makes the schedule of this number, runs it, and writes the summary of what that prints. It ends as the run of a text ends, or with [`LongText`] where the
/// made text has more than [`MAX_INPUT`](pv_base::MAX_INPUT) bytes; the summary is written when the run has ended, so at [`TextEnd::SentLimit`] nothing is.
/// Takes the time of the run, and memory in proportion to the lines that it prints.
pub fn write_summary_of_number<W: Sink>(
    alloc: Global,
    number: u32,
    sink: &mut W,
) -> Result<TextEnd, LongText>
    ensures { EndsBig W.Sink number sink.old sink.new result }
{
    let Ok(text) = make(alloc, number) else {
        return Ok(TextEnd::NoMemory);
    };
    if text.len() as u64 > MAX_INPUT {
        return Err(LongText);
    }
    Ok(write_summary_of_text(alloc, &text, sink))
}

// The summary of the run of a text that is to be a schedule.
fn write_summary_of_text<W: Sink>(alloc: Global, input: &[u8], sink: &mut W) -> TextEnd
    requires { length input.now ≤ MAX_INPUT }
    ensures answered { Answers W.Sink summary_of (λ schedule. []) input.now (text_status result) sink.old sink.new }
    ensures prefix { (status : Status) (output : List ℕ) → IsSummaryAnswer input.now status output →
        WritesPrefix W.Sink sink.old sink.new output }
    ensures some { (status : Status) (output : List ℕ) → IsSummaryAnswer input.now status output → result ≡ TextEnd.WriteFault → output ≢ [] }
    ensures write_fault { result ≡ TextEnd.WriteFault → HasFailed W.Sink sink.old sink.new }
{
    schedules_are_well_formed();
    match read_schedule(alloc, input) {
        Ok(schedule) => write_summary_of_run(alloc, &schedule, sink),
        Err(ScriptError::Malformed { line, cause }) => {
            end_of_refusal(refuse(alloc, line, cause, sink))
        }
        Err(ScriptError::NoMemory) => TextEnd::NoMemory,
    }
}

// Writes the summary of the run of a schedule, and nothing where the messages pass the limit.
fn write_summary_of_run<W: Sink>(alloc: Global, schedule: &Schedule, sink: &mut W) -> TextEnd
    requires well_formed { All (IsWellFormed schedule.now.catalog) (schedule_of schedule.now).events }
    requires plans { All (HasPlan schedule.now.catalog) schedule.now.events.items }
    ensures answered { (input : List ℕ) → length input ≤ MAX_INPUT → IsSchedule input (schedule_of schedule.now) →
        Answers W.Sink summary_of (λ schedule. []) input (text_status result) sink.old sink.new }
    ensures prefix { (input : List ℕ) → length input ≤ MAX_INPUT → IsSchedule input (schedule_of schedule.now) →
        (status : Status) (output : List ℕ) → IsSummaryAnswer input status output → WritesPrefix W.Sink sink.old sink.new output }
    ensures some { (input : List ℕ) → length input ≤ MAX_INPUT → IsSchedule input (schedule_of schedule.now) →
        (status : Status) (output : List ℕ) → IsSummaryAnswer input status output → result ≡ TextEnd.WriteFault → output ≢ [] }
    ensures write_fault { result ≡ TextEnd.WriteFault → HasFailed W.Sink sink.old sink.new }
{
    let Ok(printed) = run_to_lines(alloc, schedule) else {
        return TextEnd::NoMemory;
    };
    if printed.over.is_some() {
        return TextEnd::SentLimit;
    }
    match sum_up(
        alloc,
        schedule.events.len(),
        &printed.lines,
        &schedule.catalog,
    ) {
        Ok(text) => end_of_summary(write_all(sink, &text)),
        Err(_) => TextEnd::NoMemory,
    }
}

/// Writes at which line the input is refused, and why.
///
/// - [`WriteEnd::WriteFault`]: the output failed.
/// - [`WriteEnd::NoMemory`]: there was no memory for the text.
#[tactic(auto, unfolding(crate::specs::InputAnswers::fault_text))]
pub fn refuse<W: Sink>(
    alloc: Global,
    line: u32,
    cause: LineCause,
    sink: &mut W,
) -> Result<(), WriteEnd>
    ensures { WritesAll W.Sink IsWriteFault sink.old sink.new (fault_text line (line_cause_of cause)) result }
{
    let error = ScriptError::Malformed { line, cause };
    match format!(in alloc; "{error}\n") {
        Ok(text) => Ok(write_all(sink, text.as_bytes())?),
        Err(_) => Err(WriteEnd::NoMemory),
    }
}

// How the text ended that was run so.
fn end_of_run(ran: Result<Option<u64>, WriteEnd>) -> TextEnd
    ensures { result ≡ ends.end_of_run ran }
{
    match ran {
        Ok(None) => TextEnd::Done,
        Ok(Some(_)) => TextEnd::SentLimit,
        Err(WriteEnd::WriteFault) => TextEnd::WriteFault,
        Err(WriteEnd::NoMemory) => TextEnd::NoMemory,
    }
}

// How the text ended that was refused so.
fn end_of_refusal(written: Result<(), WriteEnd>) -> TextEnd
    ensures { result ≡ ends.end_of_refusal written }
{
    match written {
        Ok(()) => TextEnd::Malformed,
        Err(WriteEnd::WriteFault) => TextEnd::WriteFault,
        Err(WriteEnd::NoMemory) => TextEnd::NoMemory,
    }
}

// How the text ended whose summary was written so.
fn end_of_summary(written: Result<(), Failed>) -> TextEnd
    ensures { result ≡ (if is_ok written then TextEnd.Done else TextEnd.WriteFault) }
{
    match written {
        Ok(()) => TextEnd::Done,
        Err(Failed) => TextEnd::WriteFault,
    }
}

/// What the laws say of the run of every schedule's text.
pub fn promises_are_kept()
    ensures { (input : List ℕ) (schedule : model.Schedule) → IsSchedule input schedule → KeepsPromises (setup_of schedule.catalog) schedule.events }
{
    committed_fit();
    reports_show_each_readable();
    schedules_are_well_formed();
    texts_agree();
    texts_answer();
    texts_refuse_for_causes();
}

/// The trace of each schedule is that of its text, line by line.
pub fn traces_have_each_line()
    ensures { (input : List ℕ) (schedule : model.Schedule) → IsSchedule input schedule → IsTraced (setup_of schedule.catalog) input (trace_of input schedule) }
{}

/// A text has one answer in each form: one status, and one output with it.
pub fn answers_are_one()
    ensures { (form : Form) (input : List ℕ) (one other : Status) (output text : List ℕ) →
        IsRunAnswer form input one output → IsRunAnswer form input other text → (one ≡ other) × (output ≡ text) }
{}

/// A text has one summary as its answer: one status, and one output with it.
pub fn summaries_are_one()
    ensures { (input : List ℕ) (one other : Status) (output text : List ℕ) →
        IsSummaryAnswer input one output → IsSummaryAnswer input other text → (one ≡ other) × (output ≡ text) }
{}

/// Each text has an answer, in each form and as a summary.
pub fn answers_exist()
    ensures some { (form : Form) (input : List ℕ) → (status : Status) × (output : List ℕ) × IsRunAnswer form input status output }
    ensures some_summary { (input : List ℕ) → (status : Status) × (output : List ℕ) × IsSummaryAnswer input status output }
{}
