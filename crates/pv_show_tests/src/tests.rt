// Worked journals as the bytes of disks, and what is told of them.
ghost use Rattle.std.specs.Prelude.{◌≡◌, ◌≤◌, All, IfOk, length};
ghost use Rattle.pv_base.specs.declared.limits.TheConstants.{MAX_LENGTH};
ghost use Rattle.pv_disk.specs.MemBay.{mem_bay};
ghost use Rattle.pv_script.specs.declared.lines.TheConstants.{MAX_SCHEDULE};
ghost use Rattle.pv_show.specs.Bays.{IsAtRest};

use pv_base::SiteId;
use pv_disk::{Bay, MemBay, MemDisk};
use pv_script::read_live;
use pv_show::*;
use std::alloc::{AllocFailed, Global};
use std::test::Fail;

// Epoch 1, 0.1.0 prepared with 101 for item 0, and its commit.
const COMMITTED: [u8; 66] = *b"PVJRNL01\
    \x01\0\0\0\x05\x01\0\0\0\x01\
    \x01\0\0\0\x1a\x02\0\0\0\0\x01\0\0\0\0\x01\0\0\0\0\0\x01\0\0\0\0\0\0\0\0\x65\
    \x01\0\0\0\x0b\x03\0\0\0\0\x01\0\0\0\0\x01\
    \0";

// Epoch 1, and 0.1.0 prepared with 60 for item 1. Its outcome has not come.
const IN_DOUBT: [u8; 50] = *b"PVJRNL01\
    \x01\0\0\0\x05\x01\0\0\0\x01\
    \x01\0\0\0\x1a\x02\0\0\0\0\x01\0\0\0\0\x01\0\0\0\x01\0\x01\0\0\0\0\0\0\0\0\x3c\
    \0";

const EMPTY: [u8; 9] = *b"PVJRNL01\0";

// Its first gate is open, with nothing after it.
const CUT: [u8; 9] = *b"PVJRNL01\x01";

// Epoch 1, and a content of a kind that there isn't.
const BAD: [u8; 25] = *b"PVJRNL01\x01\0\0\0\x05\x01\0\0\0\x01\x01\0\0\0\x01\x04\0";

// Thirteen transactions prepared, each with another value for item 0.
const CROWDED: [u8; 412] = *b"PVJRNL01\
    \x01\0\0\0\x1a\x02\0\0\0\0\x01\0\0\0\x00\x01\0\0\0\0\0\x01\0\0\0\0\0\0\0\0\x01\
    \x01\0\0\0\x1a\x02\0\0\0\0\x01\0\0\0\x01\x01\0\0\0\0\0\x01\0\0\0\0\0\0\0\0\x02\
    \x01\0\0\0\x1a\x02\0\0\0\0\x01\0\0\0\x02\x01\0\0\0\0\0\x01\0\0\0\0\0\0\0\0\x03\
    \x01\0\0\0\x1a\x02\0\0\0\0\x01\0\0\0\x03\x01\0\0\0\0\0\x01\0\0\0\0\0\0\0\0\x04\
    \x01\0\0\0\x1a\x02\0\0\0\0\x01\0\0\0\x04\x01\0\0\0\0\0\x01\0\0\0\0\0\0\0\0\x05\
    \x01\0\0\0\x1a\x02\0\0\0\0\x01\0\0\0\x05\x01\0\0\0\0\0\x01\0\0\0\0\0\0\0\0\x06\
    \x01\0\0\0\x1a\x02\0\0\0\0\x01\0\0\0\x06\x01\0\0\0\0\0\x01\0\0\0\0\0\0\0\0\x07\
    \x01\0\0\0\x1a\x02\0\0\0\0\x01\0\0\0\x07\x01\0\0\0\0\0\x01\0\0\0\0\0\0\0\0\x08\
    \x01\0\0\0\x1a\x02\0\0\0\0\x01\0\0\0\x08\x01\0\0\0\0\0\x01\0\0\0\0\0\0\0\0\x09\
    \x01\0\0\0\x1a\x02\0\0\0\0\x01\0\0\0\x09\x01\0\0\0\0\0\x01\0\0\0\0\0\0\0\0\x0a\
    \x01\0\0\0\x1a\x02\0\0\0\0\x01\0\0\0\x0a\x01\0\0\0\0\0\x01\0\0\0\0\0\0\0\0\x0b\
    \x01\0\0\0\x1a\x02\0\0\0\0\x01\0\0\0\x0b\x01\0\0\0\0\0\x01\0\0\0\0\0\0\0\0\x0c\
    \x01\0\0\0\x1a\x02\0\0\0\0\x01\0\0\0\x0c\x01\0\0\0\0\0\x01\0\0\0\0\0\0\0\0\x0d\
    \0";

// A disk with these bytes.
fn disk_of(alloc: Global, bytes: &[u8]) -> Result<MemDisk, Fail>
    requires { length bytes.now ≤ MAX_LENGTH }
    ensures { IfOk result (λ disk. disk.faults ≡ 0) }
{
    Ok(MemDisk::of(alloc, bytes.to_vec(alloc)?))
}

// A bay with these disks.
fn bay_of(disks: Vec<MemDisk>) -> Result<MemBay, AllocFailed<Vec<MemDisk>>>
    requires { All (λ disk. disk.faults ≡ 0) disks.items }
    ensures { IfOk result (IsAtRest mem_bay) }
{
    MemBay::new(disks)
}

// What is told of the disks of a bay, for the catalog of a live script.
fn told(alloc: Global, script: &[u8], bay: &mut MemBay) -> Result<Result<Vec<u8>, ShowError>, Fail>
    requires script { length script.now ≤ MAX_SCHEDULE }
    requires rest { IsAtRest mem_bay bay.old }
    ensures { IsAtRest mem_bay bay.new }
{
    let script = read_live(alloc, script)?;
    Ok(show(alloc, &script.catalog, bay))
}

#[test]
fn a_committed_journal_is_shown(rt: HostRuntime) -> Result<(), Fail> {
    let alloc = rt.alloc();
    let disk = disk_of(alloc, COMMITTED.as_slice())?;
    let mut bay = bay_of(vec![in alloc; disk]?)?;
    let text = told(alloc, b"sites 1\nitem a 0 100\n", &mut bay)??;
    assert_eq!(rt;
        text.as_slice(),
        b"site 0 epoch 1 records 3\nitem a 101\n".as_slice()
    );
    // It is there still, and nothing was written or synced.
    assert_eq!(rt; bay.disk(SiteId(0))?.calls(), 0);
    Ok(())
}

#[test]
fn each_site_is_shown_by_its_own_journal(rt: HostRuntime) -> Result<(), Fail> {
    let alloc = rt.alloc();
    let zero = disk_of(alloc, COMMITTED.as_slice())?;
    let one = disk_of(alloc, IN_DOUBT.as_slice())?;
    let mut bay = bay_of(vec![in alloc; zero, one]?)?;
    let text = told(
        alloc,
        b"sites 2\nitem a 0 100\nitem b 1 50\nitem c 0 -7\n",
        &mut bay,
    )??;
    assert_eq!(rt;
        text.as_slice(),
        b"site 0 epoch 1 records 3\nitem a 101\nitem c -7\nsite 1 epoch 1 records 2\nitem b 50 if -0.1.0 ; 60 if +0.1.0\n".as_slice()
    );
    Ok(())
}

#[test]
fn each_kind_of_line_is_told(rt: HostRuntime) -> Result<(), Fail> {
    let alloc = rt.alloc();
    let empty = disk_of(alloc, EMPTY.as_slice())?;
    let cut = disk_of(alloc, CUT.as_slice())?;
    let bad = disk_of(alloc, BAD.as_slice())?;
    let crowded = disk_of(alloc, CROWDED.as_slice())?;
    let mut failing = disk_of(alloc, COMMITTED.as_slice())?;
    failing.fail_read(1);
    let mut bay = bay_of(vec![in alloc; empty, cut, bad, crowded, failing]?)?;
    let text = told(alloc, b"sites 5\nitem a 3 0\n", &mut bay)??;
    assert_eq!(rt;
        text.as_slice(),
        b"site 0 epoch 0 records 0\nsite 1 not-ours 8\nsite 2 bad-record 1\nsite 3 too-many 13\nsite 4 fault\n".as_slice()
    );
    Ok(())
}

// A site past the bay's disks ends it. The disks before it are back, and are shown again.
#[test]
fn a_bay_may_fail(rt: HostRuntime) -> Result<(), Fail> {
    let alloc = rt.alloc();
    let mut bay = bay_of(vec![in alloc; MemDisk::new(alloc)]?)?;
    assert_eq!(rt;
        told(alloc, b"sites 2\n", &mut bay)?.err(),
        Some(ShowError::BayFault)
    );
    let text = told(alloc, b"sites 1\n", &mut bay)??;
    assert_eq!(rt; text.as_slice(), b"site 0 not-ours 0\n".as_slice());
    Ok(())
}
