// Reports and totals of a schedule that leaves a site in doubt, which then stops.
ghost use Rattle.std.specs.Prelude.{◌≡◌, ◌≤◌, length, OnOk};
ghost use Rattle.pv_protocol.specs.WellFormed.{IsWellFormed};
ghost use Rattle.pv_script.specs.ScheduleView.{event_of, HasPlan};
ghost use Rattle.pv_script.specs.declared.lines.TheConstants.{MAX_SCHEDULE};
ghost use Rattle.pv_world.specs.Stands.{StandsForSome};

use pv_base::MAX_SENT;
use pv_law_world::schedules_are_well_formed;
use pv_script::{Event, Line, read_schedule};
use pv_world::World;
use std::alloc::Global;
use std::test::Fail;

// What the events of the schedule print.
fn lines_of(alloc: Global, text: &[u8]) -> Result<Vec<Line>, Fail>
    requires { length text.now ≤ MAX_SCHEDULE }
{
    let schedule = read_schedule(alloc, text)?;
    schedules_are_well_formed();
    let mut world = World::new(alloc, &schedule.catalog, MAX_SENT)?;
    let mut lines = Vec::new(alloc);
    for event in &schedule.events {
        push_lines(&mut world, event, &mut lines)?;
    }
    Ok(lines)
}

// What the event prints. None arms a disk.
fn push_lines(world: &mut World, event: &Event, lines: &mut Vec<Line>) -> Result<(), Fail>
    requires stands { StandsForSome world.old }
    requires event { IsWellFormed world.old.catalog (event_of event.now) }
    requires plan { HasPlan world.old.catalog event.now }
    ensures stands { OnOk result (StandsForSome world.new) }
    ensures catalog { OnOk result (world.new.catalog ≡ world.old.catalog) }
{
    if let Event::Arm { .. } = event {
        return Err("nothing is armed".into());
    }
    for line in world.step(event)? {
        lines.push(line)?;
    }
    Ok(())
}

// The lines of a schedule, each as it is debugged, with a line feed.
fn printed(alloc: Global, text: &[u8]) -> Result<String, Fail>
    requires { length text.now ≤ MAX_SCHEDULE }
{
    let mut printed = String::new(alloc);
    for line in lines_of(alloc, text)? {
        printed.push_str(&format!(in alloc; "{line:?}\n")?)?;
    }
    Ok(printed)
}

#[test]
fn a_site_in_doubt_shows_both_values(rt: HostRuntime) -> Result<(), Fail> {
    let text =
        b"sites 2\nitem a 0 100\nitem b 1 50\nsubmit 0 a := a - 10 ; b := b + 10\npump 8\nlose 8\ntick 1\ntick 1\ntick 1\nreport\ntotal\nstop 1\ntotal\n";
    let printed = printed(rt.alloc(), text)?;
    assert!(rt;
        printed.as_str()
            == "Txn(TxnId { site: SiteId(0), epoch: 1, number: 0 })
Commit { txn: TxnId { site: SiteId(0), epoch: 1, number: 0 }, replies: [Nothing] }
Order([TxnId { site: SiteId(0), epoch: 1, number: 0 }])
Committed([TxnId { site: SiteId(0), epoch: 1, number: 0 }])
OpenOnes([])
Item { item: ItemId(0), cases: [Case { when: [], value: 90 }] }
Item { item: ItemId(1), cases: [Case { when: [Literal { txn: TxnId { site: SiteId(0), epoch: 1, number: 0 }, commits: false }], value: 50 }, Case { when: [Literal { txn: TxnId { site: SiteId(0), epoch: 1, number: 0 }, commits: true }], value: 60 }] }
End
Total([140, 150])
Stopped(SiteId(1))
TotalDown(SiteId(1))
"
    );
    Ok(())
}
