// What a run prints.
ghost use Rattle.std.specs.Prelude.{◌≡◌, ◌++◌, All, IfOk, OnOk, map};
ghost use Rattle.pv_protocol.specs.Run.{printed};
ghost use Rattle.pv_protocol.specs.WellFormed.{IsWellFormed};
ghost use Rattle.pv_script.specs.LineView.{line_of};
ghost use Rattle.pv_script.specs.ScheduleView.{HasPlan, event_of};
ghost use Rattle.pv_site.specs.SiteState.{setup_of};

use pv_base::{Catalog, NoMemory};
use pv_script::{Event, Line};
use pv_world::{World, WorldError};
use std::alloc::Global;

/// All that the run of these events prints.
pub(crate) fn lines_of_run(
    alloc: Global,
    catalog: &Catalog,
    events: &[Event],
) -> Result<Vec<Line>, NoMemory>
    requires well_formed { All (IsWellFormed catalog.now) (map event_of events.now) }
    requires plans { All (HasPlan catalog.now) events.now }
    ensures { IfOk result (λ lines. map line_of lines.items ≡ printed (setup_of catalog.now) (map event_of events.now)) }
{
    // A world keeps all bytes that were sent, so memory is used up before their number is.
    let mut world = World::new(alloc, catalog, u64::MAX)?;
    let mut lines = Vec::new(alloc);
    for event in events {
        match world.step(event) {
            Ok(more) => push_all(&mut lines, more)?,
            Err(WorldError::SentLimit(_) | WorldError::NoMemory) => return Err(NoMemory),
        }
    }
    Ok(lines)
}

// These lines come after the others.
fn push_all(lines: &mut Vec<Line>, more: Vec<Line>) -> Result<(), NoMemory>
    ensures { OnOk result (lines.new.items ≡ lines.old.items ++ more.items) }
{
    for line in more {
        lines.push(line)?;
    }
    Ok(())
}
