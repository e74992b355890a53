// What runs leave on the disks of their sites, and how `show` tells it: the disks of a bay in memory, through the top call for one thread.
ghost use Rattle.std.specs.Prelude.{◌≡◌, All, IfOk};
ghost use Rattle.pv_disk.specs.MemBay.{mem_bay};
ghost use Rattle.pv_show.specs.Bays.{IsAtRest};

use super::*;
use crate::app::alone;
use pv_base::SiteId;
use pv_disk::{Bay, Disk, MemBay, MemDisk};
use pv_io::{MemSink, MemSource};
use std::alloc::{AllocError, AllocFailed, Global};
use std::process::Abort;
use std::test::Fail;

// The journal of one committed transaction, with the record of its site's first epoch.
pub(crate) const COMMITTED: [u8; 66] = [
    b'P', b'V', b'J', b'R', b'N', b'L', b'0', b'1', 1, 0, 0, 0, 5, 1, 0, 0, 0, 1, 1, 0, 0, 0, 26,
    2, 0, 0, 0, 0, 1, 0, 0, 0, 0, 1, 0, 0, 0, 0, 0, 1, 0, 0, 0, 0, 0, 0, 0, 0, 101, 1, 0, 0, 0, 11,
    3, 0, 0, 0, 0, 1, 0, 0, 0, 0, 1, 0,
];

pub(crate) const ONE_SITE: &str = "sites 1\nitem a 0 100\n";

pub(crate) const TWO_SITES: &str = "sites 2\nitem a 0 100\nitem b 1 50\n";

// A transfer whose outcome doesn't reach site 1, which shows both values then.
const DOUBT: &str = "\
sites 2
item a 0 100
item b 1 50
submit 0 a := a - 10 ; b := b + 10
pump 8
lose 8
tick 1
tick 1
tick 1
lose 9
report
";

const DOUBT_SHOWN: &str = "\
site 0 epoch 1 records 3
item a 90
site 1 epoch 1 records 2
item b 50 if -0.1.0 ; 60 if +0.1.0
";

const ONE_SHOWN: &str = "site 0 epoch 1 records 3\nitem a 101\n";

const ONE_SHOWN_OF_TWO: &str = "site 0 epoch 1 records 3\nitem a 101\nsite 1 not-ours 0\n";

// One site's promise meets a fault, and the other stops.
const STOPPED: &str =
    "sites 2\nitem a 0 100\nitem b 1 50\nsubmit 0 a := a - 10 ; b := b + 10\npump 5\nfail 1 3 kept\ndeliver 5\nstop 0\n";

const STOPPED_SHOWN: &str = "\
site 0 epoch 1 records 2
item a 100 if -0.1.0 ; 90 if +0.1.0
site 1 epoch 1 records 2
item b 50 if -0.1.0 ; 60 if +0.1.0
";

// a bay with these disks
pub(crate) fn bay_of(disks: Vec<MemDisk>) -> Result<MemBay, AllocFailed<Vec<MemDisk>>>
    requires { All (λ disk. disk.faults ≡ 0) disks.items }
    ensures { IfOk result (IsAtRest mem_bay) }
{
    MemBay::new(disks)
}

// a bay with this disk
fn bay_of_one(alloc: Global, disk: MemDisk) -> Result<MemBay, Fail>
    requires { disk.faults ≡ 0 }
    ensures { IfOk result (IsAtRest mem_bay) }
{
    let mut disks = Vec::new(alloc);
    disks.push(disk)?;
    Ok(bay_of(disks)?)
}

// a bay with these disks
fn bay_of_two(alloc: Global, first: MemDisk, second: MemDisk) -> Result<MemBay, Fail>
    requires first { first.faults ≡ 0 }
    requires second { second.faults ≡ 0 }
    ensures { IfOk result (IsAtRest mem_bay) }
{
    let mut disks = Vec::new(alloc);
    disks.push(first)?;
    disks.push(second)?;
    Ok(bay_of(disks)?)
}

// the disk that is kept for the site, if one is
fn take_kept(bay: &mut MemBay, site: u8) -> Option<MemDisk>
    ensures { IsAtRest mem_bay bay.old → IsAtRest mem_bay bay.new }
{
    bay.kept(SiteId(site))
}

// A disk with the bytes of the one that is kept for the site, on which at least so many writes and syncs were called. No call was made on the copy.
fn copy_of_kept(
    rt: &impl Abort,
    alloc: Global,
    bay: &mut MemBay,
    site: u8,
    least: u64,
) -> Result<MemDisk, Fail>
    ensures copy { IfOk result (λ disk. disk.faults ≡ 0) }
    ensures rest { IsAtRest mem_bay bay.old → IsAtRest mem_bay bay.new }
{
    let Some(disk) = take_kept(bay, site) else {
        rt.abort();
    };
    assert!(rt; disk.calls() >= least);
    copied(alloc, disk)
}

// A disk with the same bytes, of which no call was made.
fn copied(alloc: Global, disk: MemDisk) -> Result<MemDisk, Fail>
    ensures { IfOk result (λ disk. disk.faults ≡ 0) }
{
    let mut disk = disk;
    let count = disk.len()?;
    let mut bytes = vec![in alloc; 0; count as usize]?;
    disk.read_at(0, &mut bytes)?;
    Ok(MemDisk::of(alloc, bytes))
}

// the status, and what was written, of a call over a bay
pub(crate) fn call_over(
    alloc: Global,
    word: &str,
    input: &str,
    write_fails: &[u64],
    bay: &mut MemBay,
) -> Result<(Status, Vec<u8>), Fail>
    requires { IsAtRest mem_bay bay.old }
    ensures { IsAtRest mem_bay bay.new }
{
    let mut words = Vec::new(alloc);
    words.push(String::from_str(alloc, word)?)?;
    let mut source = MemSource::new(input.as_bytes().to_vec(alloc)?, Vec::new(alloc));
    let mut sink = MemSink::new(alloc, write_fails.to_vec(alloc)?);
    let status = alone(alloc, &words, &mut source, &mut sink, bay);
    Ok((status, sink.bytes().to_vec(alloc)?))
}

// Asserts that the command is done over the bay.
fn assert_done(
    rt: &(impl Abort + AllocGlobal),
    word: &str,
    input: &str,
    bay: &mut MemBay,
) -> Result<(), Fail>
    requires { IsAtRest mem_bay bay.old }
    ensures { IsAtRest mem_bay bay.new }
{
    let (status, _) = call_over(rt.alloc(), word, input, &[], bay)?;
    assert_eq!(rt; status, Status::Done);
    Ok(())
}

// Asserts that `show` is done over the bay, and what it writes.
fn assert_shows(
    rt: &(impl Abort + AllocGlobal),
    script: &str,
    bay: &mut MemBay,
    output: &str,
) -> Result<(), Fail>
    requires { IsAtRest mem_bay bay.old }
    ensures { IsAtRest mem_bay bay.new }
{
    let (status, text) = call_over(rt.alloc(), "show", script, &[], bay)?;
    assert_eq!(rt; status, Status::Done);
    assert_eq!(rt; text.as_slice(), output.as_bytes());
    Ok(())
}

// Which sites the bay keeps a disk of, with how many writes and syncs were called on each. It keeps none afterwards.
fn calls_kept(alloc: Global, bay: &mut MemBay) -> Result<Vec<(u8, u64)>, AllocError>
    ensures { IsAtRest mem_bay bay.old → IsAtRest mem_bay bay.new }
{
    let mut kept = Vec::new(alloc);
    for site in 0..16 {
        if let Some(disk) = take_kept(bay, site) {
            kept.push((site, disk.calls()))?;
        }
    }
    Ok(kept)
}

#[test]
fn a_journal_is_shown(rt: HostRuntime) -> Result<(), Fail> {
    let alloc = rt.alloc();
    let disk = MemDisk::of(alloc, COMMITTED.as_slice().to_vec(alloc)?);
    let mut bay = bay_of_one(alloc, disk)?;
    assert_shows(&rt, ONE_SITE, &mut bay, ONE_SHOWN)?;
    // It is there still, and nothing was written or synced.
    let disk = bay.disk(SiteId(0))?;
    assert!(rt; disk.calls() == 0);
    bay.back(SiteId(0), disk);
    assert!(rt; calls_kept(alloc, &mut bay)?.is_empty());
    Ok(())
}

// A run's disks were written call by call, so a program that makes their bytes at the end is seen here, by the calls that a disk has counted.
#[test]
fn a_run_that_is_done_leaves_its_disks(rt: HostRuntime) -> Result<(), Fail> {
    let alloc = rt.alloc();
    let mut bay = bay_of(Vec::new(alloc))?;
    assert_done(&rt, "run", DOUBT, &mut bay)?;
    let first = copy_of_kept(&rt, alloc, &mut bay, 0, 12)?;
    let second = copy_of_kept(&rt, alloc, &mut bay, 1, 8)?;
    assert!(rt; calls_kept(alloc, &mut bay)?.is_empty());
    let mut left = bay_of_two(alloc, first, second)?;
    assert_shows(&rt, TWO_SITES, &mut left, DOUBT_SHOWN)
}

// Disks are kept by `json` too; and none at another status, or by another command.
#[test]
fn disks_are_kept_of_a_run_that_is_done_alone(rt: HostRuntime) -> Result<(), Fail> {
    let alloc = rt.alloc();
    let mut bay = bay_of(Vec::new(alloc))?;
    assert_done(&rt, "json", DOUBT, &mut bay)?;
    assert!(rt; calls_kept(alloc, &mut bay)?.len() == 2);
    let (status, _) = call_over(alloc, "run", DOUBT, &[1], &mut bay)?;
    assert!(rt; status == Status::WriteFault);
    assert!(rt; calls_kept(alloc, &mut bay)?.is_empty());
    let (status, _) = call_over(alloc, "run", "sites 1\nnothing\n", &[], &mut bay)?;
    assert!(rt; status == Status::Malformed);
    assert!(rt; calls_kept(alloc, &mut bay)?.is_empty());
    Ok(())
}

// A disk of a site that is down is kept too, and so is one that a fault has left.
#[test]
fn disks_of_sites_that_are_down_are_kept(rt: HostRuntime) -> Result<(), Fail> {
    let alloc = rt.alloc();
    let mut bay = bay_of(Vec::new(alloc))?;
    assert_done(&rt, "run", STOPPED, &mut bay)?;
    let first = copy_of_kept(&rt, alloc, &mut bay, 0, 1)?;
    let second = copy_of_kept(&rt, alloc, &mut bay, 1, 1)?;
    let mut left = bay_of_two(alloc, first, second)?;
    assert_shows(&rt, TWO_SITES, &mut left, STOPPED_SHOWN)
}

// A disk that fails has a line, and the others are shown. A site past the bay's disks ends it, and nothing was written.
#[test]
fn disks_and_bays_may_fail(rt: HostRuntime) -> Result<(), Fail> {
    let alloc = rt.alloc();
    let mut failing = MemDisk::of(alloc, COMMITTED.as_slice().to_vec(alloc)?);
    failing.fail_read(1);
    let mut bay = bay_of_two(alloc, failing, MemDisk::new(alloc))?;
    assert_shows(
        &rt,
        TWO_SITES,
        &mut bay,
        "site 0 fault\nsite 1 not-ours 0\n",
    )?;
    let (status, text) = call_over(alloc, "show", "sites 3\n", &[], &mut bay)?;
    assert!(rt; status == Status::BayFault);
    assert!(rt; text.is_empty());
    // The disks are back: they are shown again. The fault of the first is over.
    assert_shows(&rt, TWO_SITES, &mut bay, ONE_SHOWN_OF_TWO)
}
