// The command: a trace is read, and what an audit finds of it is written.
ghost use Rattle.std.specs.Prelude.{◌≡◌, ◌≢◌, ◌≤◌, ◌⊎◌, ◌++◌, ℕ, List, [], IfOk, OnOk, length};
ghost use Rattle.pv_audit.specs.VerdictView.{verdict_of};
ghost use Rattle.pv_audit_run.specs.AuditEnds as ends;
ghost use Rattle.pv_audit_run.specs.AuditEnds.{EndsAudit, IsAuditAnswer, end_status};
ghost use Rattle.pv_audit_run.specs.VerdictText.{verdict_text};
ghost use Rattle.pv_io.specs.SinkEffects.{HasFailed, Writes, WritesAll};
ghost use Rattle.pv_run.specs.InputAnswers.{GivesUp, GivesUpOr, IsRunAnswer};
ghost use Rattle.pv_run.specs.WriteEndView.{IsWriteFault};
ghost use Rattle.pv_run.specs.declared.form.Form.TheVariants as form;
ghost use Rattle.pv_run.specs.declared.status.Status.{Status};
ghost use Rattle.pv_run.specs.declared.status.Status.TheVariants.{Done, Limit};

use crate::audit_end::AuditEnd;
use crate::verdict_text::push_verdict;
use pv_audit::{TraceError, Verdict, audit, no_fault_of_a_trace, read_trace};
use pv_base::{Catalog, MAX_INPUT};
use pv_io::{ReadEnd, Sink, Source, read_all, write_all};
use pv_law_judged::traces_of_runs_pass;
use pv_run::{WriteEnd, refuse};
use std::alloc::Global;

/// Reads a trace from the source to its end, and writes whether each report in it agrees with the serial run of its order, or the first one that doesn't, and where; or
/// the first line at fault. Takes time in proportion to the input, times the alternatives of the widest report, times the logarithm of the number of transactions.
///
/// An error is why the input wasn't read. Then nothing was written.
pub fn read_and_audit<R: Source, W: Sink>(
    alloc: Global,
    source: &mut R,
    sink: &mut W,
) -> Result<AuditEnd, ReadEnd>
    ensures { EndsAudit R.Source W.Sink source.old source.new sink.old sink.new result }
{
    traces_are_answered();
    match read_all(alloc, source, MAX_INPUT) {
        Ok(input) => Ok(audit_text(alloc, &input, sink)),
        Err(why) => Err(why),
    }
}

// What has to be answered to a text that `trace` wrote to its end is that all agree, or that a limit is passed.
fn traces_are_answered()
    ensures { (schedule input output : List ℕ) (answer : Status) → IsRunAnswer form.Trace schedule Done input → length input ≤ MAX_INPUT →
        IsAuditAnswer input answer output → (answer ≡ Done) ⊎ (answer ≡ Limit) }
{
    no_fault_of_a_trace();
    traces_of_runs_pass();
}

// What is answered to a text.
fn audit_text<W: Sink>(alloc: Global, input: &[u8], sink: &mut W) -> AuditEnd
    requires { length input.now ≤ MAX_INPUT }
    ensures answered { GivesUp (end_status result)
        ⊎ ((output : List ℕ) × IsAuditAnswer input.now (end_status result) output × Writes W.Sink sink.old sink.new output) }
    ensures exact { (answer : Status) (output : List ℕ) → IsAuditAnswer input.now answer output → GivesUpOr W.Sink (end_status result) answer output sink.old sink.new }
    ensures write_fault { result ≡ AuditEnd.WriteFault → HasFailed W.Sink sink.old sink.new }
{
    match read_trace(alloc, input) {
        Ok(trace) => match audit(alloc, &trace) {
            Ok(verdict) => {
                let written = write_verdict(alloc, &verdict, &trace.catalog, sink);
                ended_by(end_by(&verdict), written)
            }
            Err(_) => AuditEnd::NoMemory,
        },
        Err(TraceError::Malformed { line, cause }) => {
            ended_by(AuditEnd::Malformed, refuse(alloc, line, cause, sink))
        }
        Err(TraceError::NoMemory) => AuditEnd::NoMemory,
    }
}

// Writes the verdict on a trace with this catalog.
fn write_verdict<W: Sink>(
    alloc: Global,
    verdict: &Verdict,
    catalog: &Catalog,
    sink: &mut W,
) -> Result<(), WriteEnd>
    ensures { WritesAll W.Sink IsWriteFault sink.old sink.new (verdict_text catalog.now (verdict_of verdict.now)) result }
{
    let mut text = Vec::new(alloc);
    push_verdict(&mut text, verdict, catalog)?;
    Ok(write_all(sink, &text)?)
}

// How an audit ends whose answer was written so, where it ends in this way with all of it written.
fn ended_by(whole: AuditEnd, written: Result<(), WriteEnd>) -> AuditEnd
    ensures { result ≡ ends.ended_by whole written }
{
    match written {
        Ok(()) => whole,
        Err(WriteEnd::WriteFault) => AuditEnd::WriteFault,
        Err(WriteEnd::NoMemory) => AuditEnd::NoMemory,
    }
}

// How an audit ends whose verdict was written whole.
fn end_by(verdict: &Verdict) -> AuditEnd
    ensures { result ≡ ends.end_by (verdict_of verdict.now) }
{
    match verdict {
        Verdict::Yes(_) => AuditEnd::Done,
        Verdict::NoOrder { .. } => AuditEnd::Refuted,
        Verdict::NoItem { .. } => AuditEnd::Refuted,
        Verdict::Limit { .. } => AuditEnd::Limit,
    }
}
