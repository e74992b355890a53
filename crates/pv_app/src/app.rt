// The top call: from the words and the input's bytes to the output's bytes and a status. `polydb` answers all words, and `alone` those for which no
// thread is made.
ghost use Rattle.std.specs.Prelude.{◌≡◌, ◌≢◌, ℕ, map};
ghost use Rattle.std.specs.String.{string_bytes};
ghost use Rattle.pv_io.specs.SinkEffects.{WritesAll};
ghost use Rattle.pv_app.specs.Commands.{IsCommand, usage_text};
ghost use Rattle.pv_app.specs.Ends.{Ends, EndsUsage, script_status, usage_status};
ghost use Rattle.pv_app.specs.declared.tour.Tour.{Tour};
ghost use Rattle.pv_show.specs.Bays.{IsAtRest};

use crate::command::{Command, command_of, workers_of};
use crate::touring::{read_and_tour, status_of_tour};
use pv_audit_run::{read_and_audit, status_of_audit};
use pv_base::Failed;
use pv_cluster::Gate;
use pv_disk::Bay;
use pv_io::{ReadEnd, Sink, Source, write_all};
use pv_lines::ScriptEnd;
use pv_live::{read_and_live, status_of_live};
use pv_quorum_run::read_and_decide;
use pv_run::{
    Status, read_and_run, status_of_big, status_of_make, status_of_run, status_of_unread,
    write_made, write_summary_of_number,
};
use std::alloc::Global;
use std::sync::Wait;
use std::thread::Threads;

const USAGE: &[u8] =
    b"usage: polydb run | json | make N | big N | live W | show | upgrade | trace | audit | outbox | quorum\n";

/// The program, over any input, output and disks. `words` are those after the program's name. For `live`, `show` and `upgrade` no disk of the bay may be out.
///
/// - `live W` reads a live script and runs it with W workers on threads of their own, beside a thread for each client, over disks of the bay, all of
///   which have to be empty. It writes the schedule that the run came to, what each client heard, and what that schedule prints. It waits for its
///   threads, and tells the gate of each visit of a worker to a site.
/// - Other words are answered as by [`alone`].
///
/// The status says how it ended. After [`Status::WriteFault`] and [`Status::NoMemory`] the sink has taken a beginning of what was to be written.
pub fn polydb<T: Threads + Wait + Sync, R: Source, W: Sink, B: Bay, G: Gate + Sync>(
    rt: &T,
    alloc: Global,
    words: &[String],
    source: &mut R,
    sink: &mut W,
    bay: &mut B,
    gate: &G,
) -> Status
where
    B::D: Send,
    requires tour { (tour : Tour) → IsCommand (map string_bytes words.now) (Command.Over tour) → IsAtRest B.model bay.old }
    requires live { (workers : ℕ) → IsCommand (map string_bytes words.now) (Command.Live workers) → IsAtRest B.model bay.old }

    // Words that are a command end as its relation says, and `Ends` names that of each. The relation of `run` has the headline: whatever schedule the
    // input is, and in whatever writes and syncs its sites stop or fail, its run keeps the promises. That of `live` says which run, of that same world,
    // the threads came to.
    ensures command { (command : Command) → IsCommand (map string_bytes words.now) command →
        Ends R.Source W.Sink B.model B.D.model source.old source.new sink.old sink.new bay.old bay.new result command }

    // Other words are answered by the usage line, and none that are a command. Nothing is read then.
    ensures no_command { ((command : Command) → IsCommand (map string_bytes words.now) command → ⊥) →
        EndsUsage R.Source W.Sink B.model B.D.model source.old source.new sink.old sink.new bay.old bay.new result }

    // Every disk that was handed out has been handed back. Only where there was no memory for a live run it may be gone.
    ensures handed_back { ((workers : ℕ) → IsCommand (map string_bytes words.now) (Command.Live workers) → result ≢ Status.NoMemory) →
        IsAtRest B.model bay.old → IsAtRest B.model bay.new }
{
    match workers_of(words) {
        Some(workers) => {
            status_of_live(read_and_live(rt, alloc, workers, source, sink, bay, gate))
        }
        None => alone(alloc, words, source, sink, bay),
    }
}

/// The program at words other than `live W`, over any input, output and disks. It waits for nobody. For `show` and `upgrade` no disk of the bay may be
/// out; none is afterwards, where none was before.
///
/// - `run` reads a schedule from the source to its end, runs it, and writes each event's lines when the event is done; `json` does the same with
///   each line as a JSON object, and `trace` with each line of the schedule before what it printed. Takes time in proportion to the input, what is printed and what the events send and touch. At [`Status::Done`] the
///   bay is given the disks on which the sites kept their logs, each as the run left it, to keep.
/// - `make N` writes the long schedule of this number, and `big N` makes it, runs it, and writes the summary of what it prints. Neither reads
///   anything.
/// - `show` reads a live script, with or without clients, looks at the bay's disks, and writes of each site what its log holds and how that shows
///   the site's items. It changes no disk. Takes time in proportion to the input and the logs, and to the sites times the items.
/// - `upgrade` reads a live script in the same way, replaces the old spellings in the log on each of the bay's disks by what is written today, all of a disk at one
///   moment, and writes of each site what came of it. At each moment of it the records of each log are as before. Takes time in proportion to the input and the logs.
/// - `audit` reads a trace, and writes whether each report in it agrees with the serial run of its order, or the first one that doesn't, and where. It runs no site. Takes time in
///   proportion to the input, times the alternatives of the widest report, times the logarithm of the number of transactions.
/// - `outbox` reads a script of an outbox, runs it over one disk in memory, and writes what its calls answer. Takes time in proportion to the input, but for the conditions and for
///   the starts.
/// - `quorum` reads a script of deciders, runs it, each decider over a disk in memory of its own, and writes what that prints. Takes time in proportion to the input and what is sent.
///
/// The status says how it ended. After [`Status::WriteFault`] and [`Status::NoMemory`] the sink has taken a beginning of what was to be written.
pub fn alone<R: Source, W: Sink, B: Bay>(
    alloc: Global,
    words: &[String],
    source: &mut R,
    sink: &mut W,
    bay: &mut B,
) -> Status
    requires not_live { (workers : ℕ) → IsCommand (map string_bytes words.now) (Command.Live workers) → ⊥ }
    requires rest { (tour : Tour) → IsCommand (map string_bytes words.now) (Command.Over tour) → IsAtRest B.model bay.old }

    // Words that are a command end as its relation says, and other words are answered by the usage line: both as of `polydb`.
    ensures command { (command : Command) → IsCommand (map string_bytes words.now) command →
        Ends R.Source W.Sink B.model B.D.model source.old source.new sink.old sink.new bay.old bay.new result command }
    ensures no_command { ((command : Command) → IsCommand (map string_bytes words.now) command → ⊥) →
        EndsUsage R.Source W.Sink B.model B.D.model source.old source.new sink.old sink.new bay.old bay.new result }

    // Every disk that was handed out has been handed back.
    ensures handed_back { IsAtRest B.model bay.old → IsAtRest B.model bay.new }
{
    match command_of(words) {
        Some(Command::Run(form)) => status_of_run(read_and_run(alloc, form, source, sink, bay)),
        Some(Command::Over(tour)) => {
            status_of_tour(read_and_tour(alloc, tour, source, sink, bay))
        }
        Some(Command::Make(number)) => status_of_make(write_made(alloc, number, sink)),
        Some(Command::Big(number)) => status_of_big(write_summary_of_number(alloc, number, sink)),
        Some(Command::Audit) => status_of_audit(read_and_audit(alloc, source, sink)),
        Some(Command::Outbox) => status_of_script(pv_outbox_run::read_and_run(alloc, source, sink)),
        Some(Command::Quorum) => status_of_script(read_and_decide(alloc, source, sink)),
        Some(Command::Live(_)) => unreachable!(),
        None => status_of_usage(write_usage(sink)),
    }
}

// The status of a command over a small script, by how it ended.
fn status_of_script(ended: Result<ScriptEnd, ReadEnd>) -> Status
    ensures { result ≡ script_status ended }
{
    match ended {
        Ok(ScriptEnd::Done) => Status::Done,
        Ok(ScriptEnd::Malformed) => Status::Malformed,
        Ok(ScriptEnd::WriteFault) => Status::WriteFault,
        Ok(ScriptEnd::NoMemory) => Status::NoMemory,
        Err(why) => status_of_unread(why),
    }
}

// Writes the usage line.
fn write_usage<W: Sink>(sink: &mut W) -> Result<(), Failed>
    ensures { WritesAll W.Sink (λ _. Unit {0}) sink.old sink.new usage_text result }
{
    write_all(sink, USAGE)
}

// The status of words that are no command, by how the usage line was written.
fn status_of_usage(written: Result<(), Failed>) -> Status
    ensures { result ≡ usage_status written }
{
    match written {
        Ok(()) => Status::Usage,
        Err(Failed) => Status::WriteFault,
    }
}
