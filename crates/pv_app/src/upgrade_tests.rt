// How `upgrade` changes logs, and what it tells of them: the disks of a bay in memory, through the top call for one thread.
ghost use Rattle.pv_disk.specs.MemBay.{mem_bay};
ghost use Rattle.pv_show.specs.Bays.{IsAtRest};

use super::*;
use crate::bay_tests::{ONE_SITE, bay_of, call_over};
use pv_base::SiteId;
use pv_disk::{Bay, MemBay, MemDisk};
use std::process::Abort;
use std::test::Fail;

// A log in two areas: root 0 is in force, its block is empty, and behind it stand epoch 1 and 0.1.1 prepared with 50 for item 0 where 0.1.0 is refused and 60 where it
// commits, in the old spelling.
const TWO_CASES: [u8; 129] = *b"PVCKPT01\
    \x01\0\0\0\0\0\0\0\x01\0\0\0\0\0\0\0\x3a\0\0\0\0\0\0\0\0\
    \0\0\0\0\0\0\0\0\0\0\0\0\0\0\0\0\0\0\0\0\0\0\0\0\0\
    \x01\0\0\0\x05\x01\0\0\0\x01\
    \x01\0\0\0\x37\x02\0\0\0\0\x01\0\0\0\x01\x01\0\0\0\0\0\x02\
    \x01\0\0\0\0\0\x01\0\0\0\0\0\0\0\0\0\0\0\x32\
    \x01\x01\0\0\0\0\x01\0\0\0\0\0\0\0\0\0\0\0\x3c\
    \0";

// The same, but the number in force is the greatest.
const SPENT: [u8; 129] = *b"PVCKPT01\
    \x01\xff\xff\xff\xff\xff\xff\xff\xff\0\0\0\0\0\0\0\x3a\0\0\0\0\0\0\0\0\
    \0\0\0\0\0\0\0\0\0\0\0\0\0\0\0\0\0\0\0\0\0\0\0\0\0\
    \x01\0\0\0\x05\x01\0\0\0\x01\
    \x01\0\0\0\x37\x02\0\0\0\0\x01\0\0\0\x01\x01\0\0\0\0\0\x02\
    \x01\0\0\0\0\0\x01\0\0\0\0\0\0\0\0\0\0\0\x32\
    \x01\x01\0\0\0\0\x01\0\0\0\0\0\0\0\0\0\0\0\x3c\
    \0";

// Epoch 1, and a content of a kind that there isn't.
const BAD: [u8; 75] = *b"PVCKPT01\
    \x01\0\0\0\0\0\0\0\x01\0\0\0\0\0\0\0\x3a\0\0\0\0\0\0\0\0\
    \0\0\0\0\0\0\0\0\0\0\0\0\0\0\0\0\0\0\0\0\0\0\0\0\0\
    \x01\0\0\0\x05\x01\0\0\0\x01\
    \x01\0\0\0\x01\x09\
    \0";

const JOURNAL: [u8; 9] = *b"PVJRNL01\0";

// How `show` tells the two cases, in whichever spelling.
const SHOWN: &str = "\
site 0 epoch 1 records 2
item a 100 if -0.1.0 -0.1.1 ; 50 if -0.1.0 +0.1.1 ; 100 if +0.1.0 -0.1.1 ; 60 if +0.1.0 +0.1.1
";

// Asserts that the command is done over the bay, and what it writes.
fn assert_tells(
    rt: &(impl Abort + AllocGlobal),
    word: &str,
    script: &str,
    bay: &mut MemBay,
    output: &str,
) -> Result<(), Fail>
    requires { IsAtRest mem_bay bay.old }
    ensures { IsAtRest mem_bay bay.new }
{
    let (status, text) = call_over(rt.alloc(), word, script, &[], bay)?;
    assert_eq!(rt; status, Status::Done);
    assert_eq!(rt; text.as_slice(), output.as_bytes());
    Ok(())
}

#[test]
fn old_spellings_are_replaced_and_shown_as_before(rt: HostRuntime) -> Result<(), Fail> {
    let alloc = rt.alloc();
    let disk = MemDisk::of(alloc, TWO_CASES.as_slice().to_vec(alloc)?);
    let mut bay = bay_of(vec![in alloc; disk]?)?;
    assert_tells(&rt, "show", ONE_SITE, &mut bay, SHOWN)?;
    assert_tells(&rt, "upgrade", ONE_SITE, &mut bay, "site 0 upgraded 1\n")?;
    assert_tells(&rt, "upgrade", ONE_SITE, &mut bay, "site 0 upgraded 0\n")?;
    assert_tells(&rt, "show", ONE_SITE, &mut bay, SHOWN)
}

#[test]
fn each_kind_of_line_is_told(rt: HostRuntime) -> Result<(), Fail> {
    let alloc = rt.alloc();
    let long = MemDisk::of(alloc, TWO_CASES.as_slice().to_vec(alloc)?);
    let journal = MemDisk::of(alloc, JOURNAL.as_slice().to_vec(alloc)?);
    let bad = MemDisk::of(alloc, BAD.as_slice().to_vec(alloc)?);
    let mut failing = MemDisk::of(alloc, TWO_CASES.as_slice().to_vec(alloc)?);
    failing.fail_read(1);
    let mut bay = bay_of(vec![in alloc; long, journal, bad, failing]?)?;
    assert_tells(
        &rt,
        "upgrade",
        "sites 4\njournal 64\n",
        &mut bay,
        "site 0 full 69\nsite 1 not-ours 2\nsite 2 bad-record 1\nsite 3 fault\n",
    )
}

#[test]
fn the_numbers_of_a_log_may_be_used_up(rt: HostRuntime) -> Result<(), Fail> {
    let alloc = rt.alloc();
    let disk = MemDisk::of(alloc, SPENT.as_slice().to_vec(alloc)?);
    let mut bay = bay_of(vec![in alloc; disk]?)?;
    assert_tells(&rt, "upgrade", ONE_SITE, &mut bay, "site 0 spent\n")?;
    // Nothing was written: two syncs were called, the second one when the log was opened.
    assert!(rt; bay.disk(SiteId(0))?.calls() == 2);
    Ok(())
}
