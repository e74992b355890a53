// What is added is read; and many appends, to be timed.
ghost use Rattle.std.specs.Prelude.{◌≡◌, ◌<◌, ◌^◌, length, IfOk};

use pv_base::MAX_JOURNAL;
use pv_disk::{Log, LogError, LookError, MemDisk};
use pv_journal::*;
use std::alloc::Global;
use std::test::Fail;

// An append with its room.
fn add<L: Log>(log: &mut L, content: &[u8]) -> Result<(), LogError>
    requires intact { L.model.is_intact log.old }
    requires small { length content.now < 2 ^ 63 }
    ensures { L.model.is_intact log.new }
{
    log.reserve(content.len() as u64)?;
    log.append(content)
}

// The journal on a disk.
fn opened(alloc: Global, disk: MemDisk) -> Result<Journal<MemDisk>, LookError>
    ensures { IfOk result (λ journal. ⟦<Journal<MemDisk> as Log>⟧.model.is_intact journal) }
{
    match Journal::open(alloc, disk, 100) {
        Ok(journal) => Ok(journal),
        Err(OpenLog::Failed(_disk)) => Err(LookError::Failed),
        Err(OpenLog::NotOurs(_disk, place)) => Err(LookError::NotOurs(place)),
        Err(OpenLog::NoMemory(_disk)) => Err(LookError::NoMemory),
    }
}

#[test]
fn what_is_added_is_read(rt: HostRuntime) -> Result<(), Fail> {
    let alloc = rt.alloc();
    let mut disk = MemDisk::new(alloc);
    format(&mut disk)?;
    let mut journal = opened(alloc, disk)?;
    add(&mut journal, b"one")?;
    add(&mut journal, b"")?;
    assert!(rt; journal.length() == 22);
    assert!(rt; journal.read_all()?.len() == 2);

    // Two of the formatting, one of the opening, four of each append.
    assert!(rt; journal.disk().calls() == 11);
    Ok(())
}

// The length of a journal after so many appends of 20 bytes. `bench/appends` times the two tests that follow.
fn length_after(alloc: Global, appends: u32) -> Result<u64, Fail> {
    let mut disk = MemDisk::new(alloc);
    format(&mut disk)?;
    let Ok(mut journal) = Journal::open(alloc, disk, MAX_JOURNAL) else {
        return Err(LookError::Failed.into());
    };
    add_all(&mut journal, appends)?;
    Ok(journal.length())
}

fn add_all<L: Log>(log: &mut L, appends: u32) -> Result<(), LogError>
    requires { L.model.is_intact log.old }
{
    for _ in 0..appends {
        add(log, &[7; 20])?;
    }
    Ok(())
}

#[test]
fn appends_10_000(rt: HostRuntime) -> Result<(), Fail> {
    assert!(rt; length_after(rt.alloc(), 10_000)? == 250_009);
    Ok(())
}

#[test]
fn appends_100_000(rt: HostRuntime) -> Result<(), Fail> {
    assert!(rt; length_after(rt.alloc(), 100_000)? == 2_500_009);
    Ok(())
}
