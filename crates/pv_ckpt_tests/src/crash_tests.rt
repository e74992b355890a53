// What checkpoints and a rewriting make of the bytes; and many checkpoints, to be timed.
ghost use Rattle.std.specs.Prelude.{◌≡◌, ◌<◌, ◌≤◌, ◌^◌, length, vec_len, IfOk};

use pv_base::buffer;
use pv_ckpt::*;
use pv_disk::{Disk, Log, LogError, LookError, MemDisk};
use std::alloc::Global;
use std::test::Fail;

// How long a log may become here.
const LIMIT: u64 = 4_000_000;

// An append with its room.
fn add<L: Log>(log: &mut L, content: &[u8]) -> Result<(), LogError>
    requires intact { L.model.is_intact log.old }
    requires small { length content.now < 2 ^ 63 }
    ensures intact { L.model.is_intact log.new }
    ensures limit { L.model.limit log.new ≡ L.model.limit log.old }
{
    log.reserve(content.len() as u64)?;
    log.append(content)
}

// The log on a disk.
fn opened(alloc: Global, disk: MemDisk) -> Result<CkptLog<MemDisk>, LookError>
    ensures intact { IfOk result (λ log. ⟦<CkptLog<MemDisk> as Log>⟧.model.is_intact log) }
    ensures limit { IfOk result (λ log. ⟦<CkptLog<MemDisk> as Log>⟧.model.limit log ≡ LIMIT) }
{
    match CkptLog::open(alloc, disk, LIMIT) {
        Ok(log) => Ok(log),
        Err(OpenCkpt::Failed(_disk)) => Err(LookError::Failed),
        Err(OpenCkpt::NotOurs(_disk, place)) => Err(LookError::NotOurs(place)),
        Err(OpenCkpt::NoMemory(_disk)) => Err(LookError::NoMemory),
    }
}

// A checkpoint of a log within its limit.
fn packed(log: &mut CkptLog<MemDisk>) -> Result<(), CkptError>
    requires intact { ⟦<CkptLog<MemDisk> as Log>⟧.model.is_intact log.old }
    requires limit { ⟦<CkptLog<MemDisk> as Log>⟧.model.limit log.old ≡ LIMIT }
    ensures intact { ⟦<CkptLog<MemDisk> as Log>⟧.model.is_intact log.new }
    ensures limit { ⟦<CkptLog<MemDisk> as Log>⟧.model.limit log.new ≡ LIMIT }
{
    if log.length() > LIMIT {
        return Err(CkptError::NoMemory);
    }
    log.checkpoint()
}

// The three contents of the worked log: an epoch, a prepared transaction, and its commit.
const CONTENTS: [&[u8]; 3] = [
    b"\x01\0\0\0\x01",
    b"\x02\0\0\0\0\x01\0\0\0\0\x01\0\0\0\0\0\x01\0\0\0\0\0\0\0\0\x65",
    b"\x03\0\0\0\0\x01\0\0\0\0\x01",
];

// A log with the three contents.
fn worked(alloc: Global, disk: MemDisk) -> Result<CkptLog<MemDisk>, Fail>
    ensures intact { IfOk result (λ log. ⟦<CkptLog<MemDisk> as Log>⟧.model.is_intact log) }
    ensures limit { IfOk result (λ log. ⟦<CkptLog<MemDisk> as Log>⟧.model.limit log ≡ LIMIT) }
{
    let mut log = opened(alloc, disk)?;
    add(&mut log, CONTENTS[0])?;
    add(&mut log, CONTENTS[1])?;
    add(&mut log, CONTENTS[2])?;
    Ok(log)
}

// All that a disk holds.
fn bytes_of(alloc: Global, disk: &mut MemDisk) -> Result<Vec<u8>, Fail> {
    let size = disk.len()?;
    let mut bytes = buffer(alloc, size as usize)?;
    disk.read_at(0, &mut bytes)?;
    Ok(bytes)
}

// The three records behind an empty block.
const APPENDED: [u8; 116] = *b"PVCKPT01\
    \x01\0\0\0\0\0\0\0\x01\0\0\0\0\0\0\0\x3a\0\0\0\0\0\0\0\0\
    \0\0\0\0\0\0\0\0\0\0\0\0\0\0\0\0\0\0\0\0\0\0\0\0\0\
    \x01\0\0\0\x05\x01\0\0\0\x01\
    \x01\0\0\0\x1a\x02\0\0\0\0\x01\0\0\0\0\x01\0\0\0\0\0\x01\0\0\0\0\0\0\0\0\x65\
    \x01\0\0\0\x0b\x03\0\0\0\0\x01\0\0\0\0\x01\
    \0";

// Three records after a first checkpoint: root 1 has the number 2 and a block of 54 bytes at 116. Both roots are open, the records stand at 58, and the gate behind the block
// at 170.
const PACKED_ONCE: [u8; 171] = *b"PVCKPT01\
    \x01\0\0\0\0\0\0\0\x01\0\0\0\0\0\0\0\x3a\0\0\0\0\0\0\0\0\
    \x01\0\0\0\0\0\0\0\x02\0\0\0\0\0\0\0\x74\0\0\0\0\0\0\0\x36\
    \x01\0\0\0\x05\x01\0\0\0\x01\
    \x01\0\0\0\x1a\x02\0\0\0\0\x01\0\0\0\0\x01\0\0\0\0\0\x01\0\0\0\0\0\0\0\0\x65\
    \x01\0\0\0\x0b\x03\0\0\0\0\x01\0\0\0\0\x01\
    \0\
    \0\0\0\x05\x01\0\0\0\x01\
    \0\0\0\x1a\x02\0\0\0\0\x01\0\0\0\0\x01\0\0\0\0\0\x01\0\0\0\0\0\0\0\0\x65\
    \0\0\0\x0b\x03\0\0\0\0\x01\0\0\0\0\x01\
    \0";

// After a second checkpoint: root 0 has the number 3 and its block at 58, which leaves the last three bytes of the first area.
const PACKED_TWICE: [u8; 171] = *b"PVCKPT01\
    \x01\0\0\0\0\0\0\0\x03\0\0\0\0\0\0\0\x3a\0\0\0\0\0\0\0\x36\
    \x01\0\0\0\0\0\0\0\x02\0\0\0\0\0\0\0\x74\0\0\0\0\0\0\0\x36\
    \0\0\0\x05\x01\0\0\0\x01\
    \0\0\0\x1a\x02\0\0\0\0\x01\0\0\0\0\x01\0\0\0\0\0\x01\0\0\0\0\0\0\0\0\x65\
    \0\0\0\x0b\x03\0\0\0\0\x01\0\0\0\0\x01\
    \0\
    \0\x01\0\
    \0\0\0\x05\x01\0\0\0\x01\
    \0\0\0\x1a\x02\0\0\0\0\x01\0\0\0\0\x01\0\0\0\0\0\x01\0\0\0\0\0\0\0\0\x65\
    \0\0\0\x0b\x03\0\0\0\0\x01\0\0\0\0\x01\
    \0";

// Whether so many checkpoints of the three contents make these bytes, of which `look` gives the contents.
fn packs_to(alloc: Global, checkpoints: u32, wanted: &[u8]) -> Result<bool, Fail> {
    let mut disk = MemDisk::new(alloc);
    format(&mut disk)?;
    let mut log = worked(alloc, disk)?;
    pack_all(&mut log, checkpoints)?;
    let mut disk = log.close();
    if !are_the_contents(&look(alloc, &mut disk)?) {
        return Ok(false);
    }
    Ok(bytes_of(alloc, &mut disk)?.as_slice() == wanted)
}

fn pack_all(log: &mut CkptLog<MemDisk>, checkpoints: u32) -> Result<(), CkptError>
    requires intact { ⟦<CkptLog<MemDisk> as Log>⟧.model.is_intact log.old }
    requires limit { ⟦<CkptLog<MemDisk> as Log>⟧.model.limit log.old ≡ LIMIT }
    ensures intact { ⟦<CkptLog<MemDisk> as Log>⟧.model.is_intact log.new }
    ensures limit { ⟦<CkptLog<MemDisk> as Log>⟧.model.limit log.new ≡ LIMIT }
{
    for _ in 0..checkpoints {
        packed(log)?;
    }
    Ok(())
}

fn are_the_contents(all: &[Vec<u8>]) -> bool {
    if all.len() != 3 {
        return false;
    }
    all[0].as_slice() == CONTENTS[0]
        && all[1].as_slice() == CONTENTS[1]
        && all[2].as_slice() == CONTENTS[2]
}

#[test]
fn checkpoints_pack_the_bytes(rt: HostRuntime) -> Result<(), Fail> {
    let alloc = rt.alloc();
    assert!(rt; packs_to(alloc, 0, &APPENDED)?);
    assert!(rt; packs_to(alloc, 1, &PACKED_ONCE)?);
    assert!(rt; packs_to(alloc, 2, &PACKED_TWICE)?);
    Ok(())
}

// After a rewriting with the first and the last of the three: root 1 has the number 2 and a block of 24 bytes at 116, behind the records that were in force.
const REWRITTEN: [u8; 141] = *b"PVCKPT01\
    \x01\0\0\0\0\0\0\0\x01\0\0\0\0\0\0\0\x3a\0\0\0\0\0\0\0\0\
    \x01\0\0\0\0\0\0\0\x02\0\0\0\0\0\0\0\x74\0\0\0\0\0\0\0\x18\
    \x01\0\0\0\x05\x01\0\0\0\x01\
    \x01\0\0\0\x1a\x02\0\0\0\0\x01\0\0\0\0\x01\0\0\0\0\0\x01\0\0\0\0\0\0\0\0\x65\
    \x01\0\0\0\x0b\x03\0\0\0\0\x01\0\0\0\0\x01\
    \0\
    \0\0\0\x05\x01\0\0\0\x01\
    \0\0\0\x0b\x03\0\0\0\0\x01\0\0\0\0\x01\
    \0";

// A rewriting with two contents, of a log within its limit.
fn rewritten(log: &mut CkptLog<MemDisk>, first: Vec<u8>, last: Vec<u8>) -> Result<(), CkptError>
    requires intact { ⟦<CkptLog<MemDisk> as Log>⟧.model.is_intact log.old }
    requires limit { ⟦<CkptLog<MemDisk> as Log>⟧.model.limit log.old ≡ LIMIT }
    requires first { vec_len first ≤ 100 }
    requires last { vec_len last ≤ 100 }
{
    if log.length() > LIMIT {
        return Err(CkptError::NoMemory);
    }
    log.rewrite(&[first, last])
}

#[test]
fn a_rewriting_puts_the_given_contents_into_its_block(rt: HostRuntime) -> Result<(), Fail> {
    let alloc = rt.alloc();
    let mut disk = MemDisk::new(alloc);
    format(&mut disk)?;
    let mut log = worked(alloc, disk)?;
    rewritten(
        &mut log,
        CONTENTS[0].to_vec(alloc)?,
        CONTENTS[2].to_vec(alloc)?,
    )?;
    assert!(rt; log.length() == 35);
    assert!(rt; bytes_of(alloc, &mut log.close())?.as_slice() == REWRITTEN.as_slice());
    Ok(())
}

// The length of a log after so many appends of 20 bytes and so many checkpoints, to be timed.
fn length_after(alloc: Global, appends: u32, checkpoints: u32) -> Result<u64, Fail> {
    let mut disk = MemDisk::new(alloc);
    format(&mut disk)?;
    let mut log = opened(alloc, disk)?;
    add_all(&mut log, appends)?;
    pack_all(&mut log, checkpoints)?;
    Ok(log.length())
}

fn add_all<L: Log>(log: &mut L, appends: u32) -> Result<(), LogError>
    requires { L.model.is_intact log.old }
    ensures intact { L.model.is_intact log.new }
    ensures limit { L.model.limit log.new ≡ L.model.limit log.old }
{
    for _ in 0..appends {
        add(log, &[7; 20])?;
    }
    Ok(())
}

#[test]
fn appends_10_000(rt: HostRuntime) -> Result<(), Fail> {
    assert!(rt; length_after(rt.alloc(), 10_000, 0)? == 250_009);
    Ok(())
}

#[test]
fn checkpoints_of_10_000(rt: HostRuntime) -> Result<(), Fail> {
    assert!(rt; length_after(rt.alloc(), 10_000, 10)? == 250_009);
    Ok(())
}

#[test]
fn appends_100_000(rt: HostRuntime) -> Result<(), Fail> {
    assert!(rt; length_after(rt.alloc(), 100_000, 0)? == 2_500_009);
    Ok(())
}

#[test]
fn checkpoints_of_100_000(rt: HostRuntime) -> Result<(), Fail> {
    assert!(rt; length_after(rt.alloc(), 100_000, 10)? == 2_500_009);
    Ok(())
}
