// All that a run prints, line by line.
ghost use Rattle.std.specs.Prelude.{◌≡◌, ◌++◌, All, IfOk, OnOk, map};
ghost use Rattle.pv_run.specs.InputAnswers.{within_limit};
ghost use Rattle.pv_protocol.specs.WellFormed.{IsWellFormed};
ghost use Rattle.pv_report.specs.NamesOnlyItems.{NamesOnlyItems};
ghost use Rattle.pv_script.specs.LineView.{line_of};
ghost use Rattle.pv_script.specs.ScheduleView.{HasPlan, schedule_of};

use pv_base::{MAX_SENT, NoMemory};
use pv_script::{Line, Schedule};
use pv_world::{World, WorldError};
use std::alloc::Global;

/// What a run prints.
#[derive(Debug, Drop)]
pub struct Printed {
    /// The lines, up to the event whose messages pass the limit on bytes, if there is one.
    pub lines: Vec<Line>,
    /// How many bytes all messages have with those of that event, up to the first one that passes the limit.
    pub over: Option<u64>,
}

/// Runs a schedule, and answers all that it prints. Takes time as a run does, and memory in proportion to the lines.
pub fn run_to_lines(alloc: Global, schedule: &Schedule) -> Result<Printed, NoMemory>
    requires well_formed { All (IsWellFormed schedule.now.catalog) (schedule_of schedule.now).events }
    requires plans { All (HasPlan schedule.now.catalog) schedule.now.events.items }
    ensures lines { IfOk result (λ printed. map line_of printed.lines.items ≡ (within_limit (schedule_of schedule.now)).lines) }
    ensures over { IfOk result (λ printed. printed.over ≡ (within_limit (schedule_of schedule.now)).over) }
    ensures items { IfOk result (λ printed. All (NamesOnlyItems schedule.now.catalog) (map line_of printed.lines.items)) }
{
    let mut world = World::new(alloc, &schedule.catalog, MAX_SENT)?;
    let mut lines = Vec::new(alloc);
    for event in &schedule.events {
        match world.step(event) {
            Ok(more) => push_all(&mut lines, more)?,
            Err(WorldError::SentLimit(total)) => {
                return Ok(Printed {
                    lines,
                    over: Some(total),
                });
            }
            Err(WorldError::NoMemory) => return Err(NoMemory),
        }
    }
    Ok(Printed { lines, over: None })
}

// These lines come after the others.
fn push_all(lines: &mut Vec<Line>, more: Vec<Line>) -> Result<(), NoMemory>
    ensures { OnOk result (lines.new.items ≡ lines.old.items ++ more.items) }
{
    for line in more {
        lines.push(line)?;
    }
    Ok(())
}
