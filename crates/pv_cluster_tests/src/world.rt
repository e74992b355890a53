// The merge of histories, and its events in a world.
ghost use Rattle.std.specs.Prelude.{◌≡◌, All, OnOk, map};
ghost use Rattle.pv_cluster_tests.specs.Merging.{CanBeMerged};
ghost use Rattle.pv_protocol.specs.WellFormed.{IsWellFormed};
ghost use Rattle.pv_script.specs.ScheduleView.{HasPlan, event_of};
ghost use Rattle.pv_world.specs.Stands.{StandsForSome};

use crate::records::records_of;
use pv_base::{Catalog, MAX_SENT};
use pv_history::Entry;
use pv_law_histories::{histories_have_one_merge, merged_events_are_well_formed};
use pv_merge::merge;
use pv_script::{Event, Line};
use pv_world::World;
use std::alloc::Global;
use std::test::Fail;

/// Histories as one run.
#[derive(Drop)]
pub(crate) struct Merged {
    /// What the run is to print.
    pub(crate) told: String,
    /// What it prints in a world.
    pub(crate) printed: String,
    /// What the logs of the world's sites then hold.
    pub(crate) records: String,
}

/// The histories as one run, each of its parts as it is debugged.
pub(crate) fn merge_and_run(
    alloc: Global,
    catalog: &Catalog,
    histories: &[Vec<Entry>],
) -> Result<Merged, Fail>
    requires { CanBeMerged catalog.now histories.now }
{
    histories_have_one_merge();
    merged_events_are_well_formed();
    let run = merge(alloc, histories, catalog)?;
    let (printed, records) = ran(alloc, catalog, &run.events)?;
    let mut told = String::new(alloc);
    for line in run.lines {
        push_line(alloc, &line, &mut told)?;
    }
    Ok(Merged {
        told,
        printed,
        records,
    })
}

// What the events print in a world, and what the logs of its sites then hold.
fn ran(alloc: Global, catalog: &Catalog, events: &[Event]) -> Result<(String, String), Fail>
    requires formed { All (IsWellFormed catalog.now) (map event_of events.now) }
    requires plans { All (HasPlan catalog.now) events.now }
{
    let mut world = World::new(alloc, catalog, MAX_SENT)?;
    let mut lines = String::new(alloc);
    for event in events {
        push_lines(alloc, &mut world, event, &mut lines)?;
    }
    let records = records_of(alloc, world.close())?;
    Ok((lines, records))
}

// What the event prints.
fn push_lines(
    alloc: Global,
    world: &mut World,
    event: &Event,
    lines: &mut String,
) -> Result<(), Fail>
    requires stands { StandsForSome world.old }
    requires event { IsWellFormed world.old.catalog (event_of event.now) }
    requires plan { HasPlan world.old.catalog event.now }
    ensures stands { OnOk result (StandsForSome world.new) }
    ensures catalog { OnOk result (world.new.catalog ≡ world.old.catalog) }
{
    for line in world.step(event)? {
        push_line(alloc, &line, lines)?;
    }
    Ok(())
}

// The line.
fn push_line(alloc: Global, line: &Line, lines: &mut String) -> Result<(), Fail> {
    lines.push_str(&format!(in alloc; "{line:?}\n")?)?;
    Ok(())
}
