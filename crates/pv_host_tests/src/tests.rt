// What the host is told to write.
use pv_disk::Log;
use pv_host::{EMPTY_JOURNAL, HostLog};
use std::process::Abort;
use std::test::Fail;

#[test]
fn a_record_added_meanwhile_waits_for_the_next_group(rt: HostRuntime) -> Result<(), Fail> {
    let alloc = rt.alloc();
    let mut log = HostLog::open(alloc, EMPTY_JOURNAL.to_vec(alloc)?, 32)?;
    log.reserve(2)?;
    log.append(b"ab")?;
    log.ask(100);
    log.reserve(3)?;
    log.append(b"cde")?;
    let write = log.next_write().expect(&rt, "a group");
    assert_eq!(rt; write.bytes, b"\0\0\0\x02ab\0".as_slice());
    Ok(())
}

#[test]
fn records_that_have_room_are_one_group(rt: HostRuntime) -> Result<(), Fail> {
    let alloc = rt.alloc();
    let mut log = HostLog::open(alloc, EMPTY_JOURNAL.to_vec(alloc)?, 32)?;
    log.reserve(2)?;
    log.append(b"ab")?;
    log.reserve(3)?;
    log.append(b"cde")?;
    // One record has seven bytes, and both have fifteen.
    log.ask(15);
    let write = log.next_write().expect(&rt, "a group");
    assert_eq!(rt; write.bytes, b"\0\0\0\x02ab\x01\0\0\0\x03cde\0".as_slice());
    Ok(())
}

#[test]
fn one_record_has_always_room(rt: HostRuntime) -> Result<(), Fail> {
    let alloc = rt.alloc();
    let mut log = HostLog::open(alloc, EMPTY_JOURNAL.to_vec(alloc)?, 32)?;
    log.reserve(2)?;
    log.append(b"ab")?;
    assert_eq!(rt; log.least_write(), Some(7));
    log.ask(0);
    let write = log.next_write().expect(&rt, "a group");
    assert_eq!(rt; write.bytes, b"\0\0\0\x02ab\0".as_slice());
    Ok(())
}

#[test]
fn records_count_once_their_gate_is_open(rt: HostRuntime) -> Result<(), Fail> {
    let alloc = rt.alloc();
    let mut log = HostLog::open(alloc, b"PVJRNL01\x01\0\0\0\x01a\0".to_vec(alloc)?, 64)?;
    assert_eq!(rt; log.records(), 1);
    log.reserve(2)?;
    log.append(b"ab")?;
    log.reserve(3)?;
    log.append(b"cde")?;
    log.ask(15);
    log.written();
    assert_eq!(rt; log.records(), 1);
    log.written();
    assert_eq!(rt; log.records(), 3);
    Ok(())
}
