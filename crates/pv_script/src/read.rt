// How schedules and live scripts are read.
ghost use Rattle.std.specs.Prelude.{◌≡◌, ◌≤◌, ℕ, List, ◌∷◌, All, length, map, vec_len, IfOk, IfErr, IfSome, OnOk};
ghost use Rattle.pv_base.specs.Answer.{Answers};
ghost use Rattle.pv_model.specs.LineCauses as model;
ghost use Rattle.pv_model.specs.Schedule.{AreLines, Declares, IsLiveScript, IsSchedule, significant};
ghost use Rattle.pv_model.specs.LineForms.{scheduled};
ghost use Rattle.pv_script.specs.ScriptErrors.{IsMalformedAt, IsMalformedLiveAt, IsMalformedIn, refused_line};
ghost use Rattle.pv_script.specs.LineFaults.{IsErrorAt};
ghost use Rattle.pv_script.specs.LinesLeft.{unread};
ghost use Rattle.pv_script.specs.LiveSaid.{before_of_live, IsSound};
ghost use Rattle.pv_script.specs.LiveView.{live_script_of, HasPlans};
ghost use Rattle.pv_script.specs.Said.{nothing_beside, before_with, before_of, IsLimited};
ghost use Rattle.pv_script.specs.ScriptKinds.{script_of};
ghost use Rattle.pv_script.specs.TakesLine.{TakesLine};
ghost use Rattle.pv_script.specs.ScheduleView.{event_of, schedule_of, HasPlan};

use crate::lines::{Lines, MAX_SCHEDULE, SignificantLine};
use crate::live::LiveScript;
use crate::live_said::LiveSaid;
use crate::said::Said;
use crate::schedule::{Event, LineCause, Schedule, ScriptError};
use crate::script::Script;
use std::alloc::Global;

/// The schedule that a text of at most [`MAX_SCHEDULE`] bytes says.
///
/// Its lines are read in order. The first one at fault refuses the text, with its first cause in the order of
/// [`LineCause`]; where no line is significant, the place after the last line does. `NoMemory` may come at any place. Each
/// request is checked against the items declared before it, and has its plan.
///
/// The cost is linear in the length of the text, but for looking up the names of items.
pub fn read_schedule(alloc: Global, text: &[u8]) -> Result<Schedule, ScriptError>
    requires { length text.now ≤ MAX_SCHEDULE }

    ensures answer { Answers (IsSchedule text.now) (IsMalformedAt text.now) schedule_of refused_line result }

    // Each request has the plan of its program.
    ensures plans { IfOk result (λ schedule. All (HasPlan schedule.catalog) schedule.events.items) }

    // There are no more events than bytes.
    ensures few { IfOk result (λ schedule. vec_len schedule.events ≤ length text.now) }
{
    let (said, events) = read_lines(alloc, text)?;
    Ok(Schedule {
        catalog: said.catalog,
        events,
    })
}

/// What all lines of a text say that is a schedule, and its events.
pub fn read_lines(alloc: Global, text: &[u8]) -> Result<(Said, Vec<Event>), ScriptError>
    requires { length text.now ≤ MAX_SCHEDULE }
    ensures are { IfOk result (λ read. AreLines (model.at_first scheduled) (significant text.now) (map event_of read.1.items) (before_of read.0)) }
    ensures limited { IfOk result (λ read. IsLimited read.0) }
    ensures plans { IfOk result (λ read. All (HasPlan read.0.catalog) read.1.items) }
    ensures fault { IfErr result (λ error. IfSome (refused_line error) (IsMalformedAt text.now)) }
{
    let mut lines = Lines::new(text);
    let mut said = read_first(alloc, Script::Scheduled, &mut lines)?;
    let mut events = Vec::new(alloc);
    while let Some(line) = lines.next() {
        read_line(alloc, &mut said, &mut events, line)?;
    }
    Ok((said, events))
}

/// The live script that a text of at most [`MAX_SCHEDULE`] bytes says.
///
/// It is read as a schedule is, with the lines, the limits and the causes of live scripts. There may be no client: whether one is needed is for the caller.
/// Each request is checked against the items, and has its plan.
///
/// The cost is linear in the length of the text, but for looking up the names of items.
pub fn read_live(alloc: Global, text: &[u8]) -> Result<LiveScript, ScriptError>
    requires { length text.now ≤ MAX_SCHEDULE }

    ensures answer { Answers (IsLiveScript text.now) (IsMalformedLiveAt text.now) live_script_of refused_line result }

    // Each request has the plan of its program.
    ensures plans { IfOk result (λ script. All (HasPlans script.catalog) script.clients.items) }
{
    let mut lines = Lines::new(text);
    let said = read_first(alloc, Script::Live, &mut lines)?;
    let mut live = LiveSaid {
        said,
        fault_plan: None,
        clients: Vec::new(alloc),
    };
    while let Some(line) = lines.next() {
        read_live_line(alloc, &mut live, line)?;
    }
    Ok(live.into_script())
}

// What the first line that counts says.
fn read_first(alloc: Global, script: Script, lines: &mut Lines) -> Result<Said, ScriptError>
    ensures declares { IfOk result (λ said. (number : ℕ) × (line : List ℕ)
        × (lines.old.numbered ≡ (number, line) ∷ lines.new.numbered)
        × Declares (model.at_first (script_of script)) line (before_with (nothing_beside (script_of script)) said)) }
    ensures limited { IfOk result IsLimited }
    ensures fault { (text : List ℕ) → IfErr result (λ error. lines.old ≡ unread text → IfSome (refused_line error) (IsMalformedIn (script_of script) text)) }
{
    let Some(line) = lines.next() else {
        return Err(ScriptError::Malformed {
            line: lines.after_last(),
            cause: LineCause::SitesExpected,
        });
    };
    match Said::first(alloc, script, line.text) {
        Ok(said) => Ok(said),
        Err(fault) => Err(fault.at(line.number)),
    }
}

// Reads one more line, which declares something or is an event, the last of the events so far.
fn read_line(
    alloc: Global,
    said: &mut Said,
    events: &mut Vec<Event>,
    line: SignificantLine,
) -> Result<(), ScriptError>
    requires { IsLimited said.old }
    ensures takes { OnOk result (TakesLine (before_of said.old) line.entry.text.now (before_of said.new) said.new.catalog events.old.items events.new.items) }
    ensures limited { OnOk result (IsLimited said.new) }
    ensures fault { IfErr result (IsErrorAt (before_of said.old) line.entry.number line.entry.text.now) }
{
    match said.read(alloc, line.text) {
        Ok(Some(event)) => {
            events.push(event)?;
            Ok(())
        },
        Ok(None) => Ok(()),
        Err(fault) => Err(fault.at(line.number)),
    }
}

// Takes one more line of a live script.
fn read_live_line(
    alloc: Global,
    live: &mut LiveSaid,
    line: SignificantLine,
) -> Result<(), ScriptError>
    requires { IsSound live.old }
    ensures declares { OnOk result (Declares (before_of_live live.old) line.entry.text.now (before_of_live live.new)) }
    ensures sound { OnOk result (IsSound live.new) }
    ensures fault { IfErr result (IsErrorAt (before_of_live live.old) line.entry.number line.entry.text.now) }
{
    match live.read(alloc, line.text) {
        Ok(()) => Ok(()),
        Err(fault) => Err(fault.at(line.number)),
    }
}
