// The command `live`: its input is read, and the sites that it declares are run on threads, over the disks of a bay.
ghost use Rattle.std.specs.Prelude.{◌≡◌, ◌≢◌, ◌≤◌, Ok, is_ok, if◌then◌else◌, length};
ghost use Rattle.pv_base.specs.Catalog.{Declared};
ghost use Rattle.pv_base.specs.declared.limits.TheConstants.{MAX_INPUT};
ghost use Rattle.pv_cluster.specs.declared.running.TheConstants.{MAX_WORKERS};
ghost use Rattle.pv_io.specs.SinkEffects.{HasFailed, WritesNothing};
ghost use Rattle.pv_live.specs.LiveEnds as ends;
ghost use Rattle.pv_live.specs.LiveEnds.{AnswersLive, EndsLive, IsNotLaunched, RunsSites};
ghost use Rattle.pv_opening.specs.Opening.{IsRead};
ghost use Rattle.pv_script.specs.LiveView.{live_script_of};
ghost use Rattle.pv_show.specs.Bays.{IsAtRest};

use crate::live_end::LiveEnd;
use crate::running::text_of_run;
use pv_base::{Failed, MAX_INPUT, NoMemory};
use pv_crew::Gate;
use pv_disk::Bay;
use pv_io::{ReadEnd, Sink, Source, read_all, write_all};
use pv_launch::{NotLaunched, launch, launched_sites_are_numbered};
use pv_run::{WriteEnd, refuse};
use pv_script::{LineCause, LiveScript, ScriptError, line_after, read_live};
use std::alloc::Global;
use std::sync::Wait;
use std::thread::Threads;

/// Reads a live script to its end, runs it with so many workers over the disks of the bay, each of which has to be empty, and writes the text of the run. An error is why the
/// input wasn't read. Then nothing was written, and nothing was done with the bay.
///
/// It waits for the threads that it makes. Unless there was no memory all disks are back when it ends.
pub fn read_and_live<T: Threads + Wait + Sync, R: Source, W: Sink, B: Bay, G: Gate + Sync>(
    rt: &T,
    alloc: Global,
    workers: u32,
    source: &mut R,
    sink: &mut W,
    bay: &mut B,
    gate: &G,
) -> Result<LiveEnd, ReadEnd>
where
    B::D: Send,
    requires workers { (1 ≤ workers) × (workers ≤ MAX_WORKERS) }
    requires rest { IsAtRest B.model bay.old }
    ensures { EndsLive R.Source W.Sink B.model B.D.model source.old source.new sink.old sink.new bay.old bay.new result }
{
    match read_all(alloc, source, MAX_INPUT) {
        Ok(input) => Ok(live_text(rt, alloc, workers, &input, sink, bay, gate)),
        Err(why) => Err(why),
    }
}

// What is done with an input that was read to its end.
fn live_text<T: Threads + Wait + Sync, W: Sink, B: Bay, G: Gate + Sync>(
    rt: &T,
    alloc: Global,
    workers: u32,
    input: &[u8],
    sink: &mut W,
    bay: &mut B,
    gate: &G,
) -> LiveEnd
where
    B::D: Send,
    requires short { length input.now ≤ MAX_INPUT }
    requires workers { (1 ≤ workers) × (workers ≤ MAX_WORKERS) }
    requires rest { IsAtRest B.model bay.old }
    ensures answers { AnswersLive W.Sink B.model B.D.model sink.old sink.new bay.old bay.new (Ok result) input.now }
    ensures alone { result ≡ LiveEnd.Malformed → bay.new ≡ bay.old }
    ensures rest { result ≢ LiveEnd.NoMemory → IsAtRest B.model bay.new }
    ensures bay_fault { result ≡ LiveEnd.BayFault →
        (catalog : Declared) × IsNotLaunched B.model B.D.model catalog bay.old bay.new LiveEnd.BayFault × WritesNothing W.Sink sink.old sink.new }
    ensures not_empty { result ≡ LiveEnd.NotEmpty →
        (catalog : Declared) × IsNotLaunched B.model B.D.model catalog bay.old bay.new LiveEnd.NotEmpty × WritesNothing W.Sink sink.old sink.new }
    ensures write_fault { result ≡ LiveEnd.WriteFault → HasFailed W.Sink sink.old sink.new }
{
    match read_live(alloc, input) {
        Ok(script) => {
            if script.clients.is_empty() {
                let line = line_after(input);
                return end_of_refusal(refuse(alloc, line, LineCause::ClientExpected, sink));
            }
            live_script(rt, alloc, workers, &script, sink, bay, gate)
        }
        Err(ScriptError::Malformed { line, cause }) => {
            end_of_refusal(refuse(alloc, line, cause, sink))
        }
        Err(ScriptError::NoMemory) => LiveEnd::NoMemory,
    }
}

// Runs the script, and writes the text of its run.
fn live_script<T: Threads + Wait + Sync, W: Sink, B: Bay, G: Gate + Sync>(
    rt: &T,
    alloc: Global,
    workers: u32,
    script: &LiveScript,
    sink: &mut W,
    bay: &mut B,
    gate: &G,
) -> LiveEnd
where
    B::D: Send,
    requires script { IsRead script.now }
    requires workers { (1 ≤ workers) × (workers ≤ MAX_WORKERS) }
    requires rest { IsAtRest B.model bay.old }
    ensures run { RunsSites B.model B.D.model W.Sink (live_script_of script.now) bay.old bay.new sink.old sink.new result }
    ensures rest { result ≢ LiveEnd.NoMemory → IsAtRest B.model bay.new }
    ensures write_fault { result ≡ LiveEnd.WriteFault → HasFailed W.Sink sink.old sink.new }
{
    launched_sites_are_numbered::<B>();
    // Made while no disk is out: where there is no memory for it none is lost.
    let Ok(histories) = Vec::with_capacity(alloc, usize::from(script.catalog.sites())) else {
        return LiveEnd::NoMemory;
    };
    match launch(alloc, &script.catalog, bay) {
        Ok(sites) => match text_of_run(rt, alloc, workers, script, sites, histories, bay, gate) {
            Ok(text) => end_of_text(write_all(sink, &text)),
            Err(NoMemory) => LiveEnd::NoMemory,
        },
        Err(why) => end_of_launch(why),
    }
}

// How it ended for a text that was refused so.
fn end_of_refusal(written: Result<(), WriteEnd>) -> LiveEnd
    ensures { result ≡ ends.end_of_refusal written }
{
    match written {
        Ok(()) => LiveEnd::Malformed,
        Err(WriteEnd::WriteFault) => LiveEnd::WriteFault,
        Err(WriteEnd::NoMemory) => LiveEnd::NoMemory,
    }
}

// How it ended where no site was launched.
fn end_of_launch(why: NotLaunched) -> LiveEnd
    ensures { result ≡ ends.end_of_launch why }
{
    match why {
        NotLaunched::NotEmpty(_) => LiveEnd::NotEmpty,
        NotLaunched::BayFault | NotLaunched::DiskFault(_) | NotLaunched::Misread(_) => {
            LiveEnd::BayFault
        }
        NotLaunched::NoMemory => LiveEnd::NoMemory,
    }
}

// How it ended where the text of the run was written so.
fn end_of_text(written: Result<(), Failed>) -> LiveEnd
    ensures { result ≡ (if is_ok written then LiveEnd.Done else LiveEnd.WriteFault) }
{
    match written {
        Ok(()) => LiveEnd::Done,
        Err(Failed) => LiveEnd::WriteFault,
    }
}
