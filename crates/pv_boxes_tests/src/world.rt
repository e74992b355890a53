// A schedule in a world.
ghost use Rattle.std.specs.Prelude.{◌≡◌, ◌≤◌, length, OnOk};
ghost use Rattle.pv_protocol.specs.WellFormed.{IsWellFormed};
ghost use Rattle.pv_script.specs.ScheduleView.{event_of, HasPlan};
ghost use Rattle.pv_script.specs.declared.lines.TheConstants.{MAX_SCHEDULE};
ghost use Rattle.pv_world.specs.Stands.{StandsForSome};

use crate::records::records_of;
use pv_base::MAX_SENT;
use pv_law_world::schedules_are_well_formed;
use pv_script::{Event, read_schedule};
use pv_world::World;
use std::alloc::Global;
use std::test::Fail;

/// The lines that the run of the schedule prints, and what the sites' logs then hold, each as it is debugged.
pub(crate) fn ran(alloc: Global, text: &[u8]) -> Result<(String, String), Fail>
    requires { length text.now ≤ MAX_SCHEDULE }
{
    let schedule = read_schedule(alloc, text)?;
    schedules_are_well_formed();
    let mut world = World::new(alloc, &schedule.catalog, MAX_SENT)?;
    let mut lines = String::new(alloc);
    for event in &schedule.events {
        push_lines(alloc, &mut world, event, &mut lines)?;
    }
    let records = records_of(alloc, world.close())?;
    Ok((lines, records))
}

// What the event prints.
fn push_lines(
    alloc: Global,
    world: &mut World,
    event: &Event,
    lines: &mut String,
) -> Result<(), Fail>
    requires stands { StandsForSome world.old }
    requires event { IsWellFormed world.old.catalog (event_of event.now) }
    requires plan { HasPlan world.old.catalog event.now }
    ensures stands { OnOk result (StandsForSome world.new) }
    ensures catalog { OnOk result (world.new.catalog ≡ world.old.catalog) }
{
    for line in world.step(event)? {
        lines.push_str(&format!(in alloc; "{line:?}\n")?)?;
    }
    Ok(())
}
