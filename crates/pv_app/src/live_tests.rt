// Live runs through the top call, over disks in memory: what they write, what they leave, what ends them, and that sites are really visited at once.
ghost use Rattle.std.specs.Prelude.{◌≡◌, All, IfOk};
ghost use Rattle.pv_disk.specs.MemBay.{mem_bay};
ghost use Rattle.pv_show.specs.Bays.{IsAtRest};

use super::*;
use crate::bay_tests::{COMMITTED, ONE_SITE, TWO_SITES, bay_of};
use pv_base::{Mode, SiteId};
use pv_cluster::Gate;
use pv_disk::{MemBay, MemDisk};
use pv_io::{MemSink, MemSource};
use std::alloc::{AllocError, Global};
use std::process::Abort;
use std::sync::atomic::{AtomicBool, Ordering};
use std::test::Fail;

// A transfer between two sites.
const TRANSFER: &str =
    "sites 2\nitem a 0 100\nitem b 1 50\nclient 0\nsubmit a := a - 10 ; b := b + 10\n";

const FOUR_SITES: &str = "sites 4\nitem a 0 100\nitem b 1 100\nitem c 2 100\nitem d 3 100\n";

// A client at each of these sites moves 1 to the next site's item, so often.
const CLIENTS: [&str; 3] = [
    "submit a := a - 1 ; b := b + 1\n",
    "submit b := b - 1 ; c := c + 1\n",
    "submit c := c - 1 ; d := d + 1\n",
];

const TRANSFERS: usize = 50;

// A client at each of two sites, each with a request of its own site alone.
const TWO_CLIENTS: &str =
    "sites 2\nitem a 0 1\nitem b 1 1\nclient 0\nsubmit a := a + 1\nclient 1\nsubmit b := b + 1\n";

// Live scripts that are malformed, and how that is reported.
const MALFORMED: &[(&str, &str)] = &[
    ("", "line 1: sites expected\n"),
    (
        "sites 1\nitem a 0 0\nsubmit a := 1\n",
        "line 3: client expected\n",
    ),
    // There is no client, which is missed behind the last line.
    ("sites 1\nitem a 0 0\n", "line 3: client expected\n"),
    (
        "sites 1\nitem a 0 0\n# no client",
        "line 4: client expected\n",
    ),
    ("sites 1\nclient 1\n", "line 2: bad number\n"),
    (
        "sites 1\nclient 0\nsubmit a := 1\n",
        "line 3: unknown name column 1\n",
    ),
    ("sites 1\nclient 0\npump\n", "line 3: unknown word\n"),
    ("sites 1\nplan 1 0\nplan 1 0\n", "line 3: twice\n"),
    ("sites 1\nclient 0\nplan 1 0\n", "line 3: too late\n"),
];

// A client at the only site, with two requests.
const ONE_CLIENT: &str = "sites 1\nitem a 0 0\nclient 0\nsubmit a := 1\nsubmit a := 1\n";

// How many writes and syncs of its disk come before a site has started.
const CALLS_BEFORE: u32 = 8;

// How often a gate looks before it gives up.
const LOOKS: u32 = 1_000_000_000;

// A gate of two sites. The first visit of each begins only when one of the other is about to begin.
#[derive(Drop)]
struct BothAtOnce {
    first: AtomicBool,
    second: AtomicBool,
    // Whether the other's visit wasn't about to begin.
    waited_in_vain: AtomicBool,
}

impl Gate for BothAtOnce {
    fn before(&self, site: SiteId) {
        let (own, other) = if site.0 == 0 {
            (&self.first, &self.second)
        } else {
            (&self.second, &self.first)
        };
        own.store(true, Ordering::SeqCst);
        for _ in 0..LOOKS {
            if other.load(Ordering::SeqCst) {
                return;
            }
        }
        self.waited_in_vain.store(true, Ordering::SeqCst);
    }

    fn after(&self, _site: SiteId) {}
}

// a bay with so many empty disks
fn bay_of_empty(alloc: Global, count: usize) -> Result<MemBay, Fail>
    ensures { IfOk result (IsAtRest mem_bay) }
{
    let mut disks = Vec::new(alloc);
    for _ in 0..count {
        disks.push(MemDisk::new(alloc))?;
    }
    Ok(bay_of(disks)?)
}

// the status, and what was written, of a live run with so many workers over a bay
fn live<G: Gate + Sync>(
    rt: &(impl AllocGlobal + Threads + Wait + Sync),
    workers: &str,
    script: &[u8],
    bay: &mut MemBay,
    gate: &G,
) -> Result<(Status, Vec<u8>), Fail>
    requires { IsAtRest mem_bay bay.old }
{
    let alloc = rt.alloc();
    let mut words = Vec::new(alloc);
    words.push(String::from_str(alloc, "live")?)?;
    words.push(String::from_str(alloc, workers)?)?;
    let mut source = MemSource::new(script.to_vec(alloc)?, Vec::new(alloc));
    let mut sink = MemSink::new(alloc, Vec::new(alloc));
    let status = polydb(rt, alloc, &words, &mut source, &mut sink, bay, gate);
    Ok((status, sink.bytes().to_vec(alloc)?))
}

// The schedule, the clients' lines and the answers that a live run's text has, if it has them.
fn parts_of(text: &[u8]) -> Option<(&str, &str, &str)> {
    let Ok(text) = std::str::from_utf8(text) else {
        return None;
    };
    let text = text.strip_prefix("schedule\n")?;
    let (schedule, text) = text.split_once("\nclients\n")?;
    let (clients, answers) = text.split_once("\nanswers\n")?;
    Some((schedule, clients, answers))
}

// Asserts that a run of this schedule prints exactly these answers.
fn assert_answers(
    rt: &(impl Abort + AllocGlobal + Threads + Wait + Sync),
    schedule: &str,
    answers: &str,
) -> Result<(), Fail> {
    let (status, printed) = crate::tests::call(rt, &["run"], schedule.as_bytes(), &[], &[])?;
    assert_eq!(rt; status, Status::Done);
    assert_eq!(rt; printed.as_slice(), answers.as_bytes());
    Ok(())
}

#[test]
fn a_transfer_is_run_live(rt: HostRuntime) -> Result<(), Fail> {
    let mut bay = bay_of_empty(rt.alloc(), 2)?;
    let (status, text) = live(&rt, "1", TRANSFER.as_bytes(), &mut bay, &IdleGate)?;
    assert_eq!(rt; status, Status::Done);
    let Some((schedule, clients, answers)) = parts_of(&text) else {
        rt.abort();
    };
    assert_eq!(rt; clients, "client 0 0 commit 0.1.0 certain nothing");
    assert!(rt; answers.as_bytes().ends_with(b"\ntotal certain 150\n"));
    assert_answers(&rt, schedule, answers)
}

// A client of a site that does nothing looks at its item.
const LOOK: &str = "sites 1\nitem a 0 7\nclient 0\npeek a\n";

#[test]
fn an_item_is_looked_at(rt: HostRuntime) -> Result<(), Fail> {
    let mut bay = bay_of_empty(rt.alloc(), 1)?;
    let (status, text) = live(&rt, "1", LOOK.as_bytes(), &mut bay, &IdleGate)?;
    assert_eq!(rt; status, Status::Done);
    let Some((_, clients, _)) = parts_of(&text) else {
        rt.abort();
    };
    assert_eq!(rt; clients, "client 0 0 peek 0 7");
    Ok(())
}

#[test]
fn three_clients_move_among_four_sites(rt: HostRuntime) -> Result<(), Fail> {
    let alloc = rt.alloc();
    let mut script = FOUR_SITES.as_bytes().to_vec(alloc)?;
    for (site, request) in CLIENTS.iter().enumerate() {
        script.extend_from_slice(format!(in alloc; "client {site}\n")?.as_bytes())?;
        for _ in 0..TRANSFERS {
            script.extend_from_slice(request.as_bytes())?;
        }
    }
    let mut bay = bay_of_empty(alloc, 4)?;
    let (status, text) = live(&rt, "4", &script, &mut bay, &IdleGate)?;
    assert_eq!(rt; status, Status::Done);
    let Some((schedule, clients, answers)) = parts_of(&text) else {
        rt.abort();
    };
    let mut lines = 0_u32;
    for line in clients.split('\n') {
        assert!(rt; line.find(" commit ").is_some() || line.find(" refuse ").is_some());
        lines = lines.wrapping_add(1);
    }
    assert_eq!(rt; lines, 150);
    assert!(rt; answers.as_bytes().ends_with(b"\ntotal certain 400\n"));
    assert_answers(&rt, schedule, answers)
}

#[test]
fn two_sites_are_visited_at_once(rt: HostRuntime) -> Result<(), Fail> {
    let gate = BothAtOnce {
        first: AtomicBool::new(false),
        second: AtomicBool::new(false),
        waited_in_vain: AtomicBool::new(false),
    };
    let mut bay = bay_of_empty(rt.alloc(), 2)?;
    let (status, _) = live(&rt, "2", TWO_CLIENTS.as_bytes(), &mut bay, &gate)?;
    assert_eq!(rt; status, Status::Done);
    assert!(rt; gate.first.load(Ordering::SeqCst));
    assert!(rt; gate.second.load(Ordering::SeqCst));
    assert!(rt; !gate.waited_in_vain.load(Ordering::SeqCst));
    Ok(())
}

#[test]
fn a_script_that_cannot_be_run_is_refused(rt: HostRuntime) -> Result<(), Fail> {
    for (script, output) in MALFORMED {
        let mut bay = bay_of_empty(rt.alloc(), 1)?;
        let (status, text) = live(&rt, "1", script.as_bytes(), &mut bay, &IdleGate)?;
        assert_eq!(rt; status, Status::Malformed, "at {script}");
        assert_eq!(rt; text.as_slice(), output.as_bytes(), "at {script}");
    }
    Ok(())
}

// A disk that isn't empty ends it, the second as well as the first.
#[test]
fn a_disk_with_a_log_ends_a_live_run(rt: HostRuntime) -> Result<(), Fail> {
    let alloc = rt.alloc();
    let mut disks = Vec::new(alloc);
    disks.push(MemDisk::new(alloc))?;
    disks.push(MemDisk::of(alloc, COMMITTED.as_slice().to_vec(alloc)?))?;
    let mut bay = bay_of(disks)?;
    let (status, text) = live(&rt, "1", TRANSFER.as_bytes(), &mut bay, &IdleGate)?;
    assert_eq!(rt; status, Status::NotEmpty);
    assert!(rt; text.is_empty());
    Ok(())
}

// There are two disks for three sites; and a disk fails before its site has started.
#[test]
fn a_bay_that_fails_ends_a_live_run(rt: HostRuntime) -> Result<(), Fail> {
    let alloc = rt.alloc();
    let mut bay = bay_of_empty(alloc, 2)?;
    let script = "sites 3\nitem a 0 1\nclient 0\nsubmit a := 1\n";
    let (status, text) = live(&rt, "1", script.as_bytes(), &mut bay, &IdleGate)?;
    assert_eq!(rt; status, Status::BayFault);
    assert!(rt; text.is_empty());
    let mut disks = Vec::new(alloc);
    let mut disk = MemDisk::new(alloc);
    disk.arm(1, Mode::Lost, true);
    disks.push(disk)?;
    let mut bay = bay_of(disks)?;
    let script = "sites 1\nitem a 0 1\nclient 0\nsubmit a := 1\n";
    let (status, text) = live(&rt, "1", script.as_bytes(), &mut bay, &IdleGate)?;
    assert_eq!(rt; status, Status::BayFault);
    assert!(rt; text.is_empty());
    Ok(())
}

// A disk fails when its site has started, at what would commit the first request. The client hears that, and that the site is down then; and the schedule has the fault.
#[test]
fn a_client_hears_of_a_disk_that_fails(rt: HostRuntime) -> Result<(), Fail> {
    let alloc = rt.alloc();
    let mut disks = Vec::new(alloc);
    let mut disk = MemDisk::new(alloc);
    disk.arm(CALLS_BEFORE + 1, Mode::Lost, false);
    disks.push(disk)?;
    let mut bay = bay_of(disks)?;
    let (status, text) = live(&rt, "1", ONE_CLIENT.as_bytes(), &mut bay, &IdleGate)?;
    assert_eq!(rt; status, Status::Done);
    let Some((schedule, clients, answers)) = parts_of(&text) else {
        rt.abort();
    };
    assert_eq!(rt; clients, "client 0 0 fault 0\nclient 0 1 down 0");
    assert!(rt; schedule.find("\nfail 0 1 lost\n").is_some());
    assert_answers(&rt, schedule, answers)
}
