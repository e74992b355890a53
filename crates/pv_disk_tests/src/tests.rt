// Each public call once, and what no clause says.
ghost use Rattle.std.specs.Prelude.{◌≡◌, ◌<◌, ◌≤◌, ◌+◌, ◌^◌, ◌++◌, false, List, ℕ, None, length, IfOk, OnOk};
ghost use Rattle.pv_disk_model.specs.Log.{Adds};

use pv_base::{Failed, SiteId};
use pv_disk::*;
use std::alloc::Global;
use std::fs;
use std::fs::{File, OpenOptions};
use std::test::Fail;

// An append with its room, over any log.
#[tactic(auto, using(pv_disk_model::proofs::LogLemmas::log_joins))]
fn add<L: Log>(log: &mut L, content: &[u8]) -> Result<(), LogError>
    requires intact { L.model.is_intact log.old }
    requires up { L.model.is_down log.old ≡ false }
    requires small { length content.now < 2 ^ 63 }
    ensures intact { L.model.is_intact log.new }
    ensures added { OnOk result (Adds L.model log.old log.new content.now) }
    ensures up { OnOk result (L.model.is_down log.new ≡ false) }
{
    log.reserve(content.len() as u64)?;
    log.append(content)
}

#[test]
fn a_log_in_memory_holds_what_is_added(rt: HostRuntime) -> Result<(), Fail> {
    let alloc = rt.alloc();
    let mut log = ListLog::new(alloc, 32, Vec::new(alloc));
    add(&mut log, b"one")?;
    let held = log.read_all()?;
    assert_eq!(rt; held.len(), 1);
    assert_eq!(rt; held[0].as_slice(), b"one".as_slice());
    Ok(())
}

// What the disk holds.
fn held(alloc: Global, disk: &mut MemDisk) -> Result<Vec<u8>, Fail> {
    let length = disk.len()?;
    let mut bytes = vec![in alloc; 0; length as usize]?;
    disk.read_at(0, &mut bytes)?;
    Ok(bytes)
}

#[test]
fn a_bay_in_memory_hands_out_and_takes_back(rt: HostRuntime) -> Result<(), Fail> {
    let alloc = rt.alloc();
    let zero = MemDisk::of(alloc, b"zero".to_vec(alloc)?);
    let one = MemDisk::of(alloc, b"one".to_vec(alloc)?);
    let mut bay = MemBay::new(vec![in alloc; zero, one]?)?;
    let mut disk = bay.disk(SiteId(1))?;
    assert_eq!(rt; held(alloc, &mut disk)?.as_slice(), b"one".as_slice());
    disk.reserve(3, 1)?;
    disk.write_at(0, b"two")?;
    bay.back(SiteId(1), disk);
    let mut disk = bay.disk(SiteId(1))?;
    assert_eq!(rt; held(alloc, &mut disk)?.as_slice(), b"two".as_slice());
    Ok(())
}

#[test]
fn a_disk_is_on_a_file(rt: HostRuntime) -> Result<(), Fail> {
    let name = "file-disk-test.pv";
    let file = OpenOptions::new()
        .read(true)
        .write(true)
        .create(true)
        .truncate(true)
        .open(&rt, name)?;
    let mut disk = FileDisk::new(file);
    assert_eq!(rt; disk.len()?, 0);
    disk.reserve(3, 1)?;
    disk.write_at(0, b"one")?;
    disk.sync()?;
    assert_eq!(rt; disk.len()?, 3);
    let mut bytes = [0; 2];
    disk.read_at(1, &mut bytes)?;
    assert_eq!(rt; bytes.as_slice(), b"ne".as_slice());

    // A read that ends early, and a write to a file that is open for reading.
    assert_eq!(rt; disk.read_at(2, &mut bytes), Err(Failed));
    assert_eq!(rt; disk.faults(), 1);
    let mut disk = FileDisk::new(File::open(&rt, name)?);
    fs::remove_file(&rt, name)?;
    disk.reserve(3, 1)?;
    assert_eq!(rt; disk.write_at(0, b"two"), Err(Failed));
    assert_eq!(rt; disk.faults(), 1);
    Ok(())
}

#[test]
fn a_bay_is_on_the_current_folder(rt: HostRuntime) -> Result<(), Fail> {
    let alloc = rt.alloc();
    let mut bay = FolderBay::new(alloc, rt.clone()?);
    let mut disk = bay.disk(SiteId(13))?;
    assert_eq!(rt; disk.len()?, 0);
    disk.reserve(4, 1)?;
    disk.write_at(0, b"that")?;
    bay.back(SiteId(13), disk);

    // A disk in memory changes no file, and makes none.
    bay.keep(SiteId(13), MemDisk::of(alloc, b"else".to_vec(alloc)?));
    bay.keep(SiteId(14), MemDisk::of(alloc, b"else".to_vec(alloc)?));
    assert!(rt; File::open(&rt, "site-14.pv").is_err());
    let mut disk = bay.disk(SiteId(13))?;
    assert_eq!(rt; disk.len()?, 4);
    let mut bytes = [0; 4];
    disk.read_at(0, &mut bytes)?;
    assert_eq!(rt; bytes.as_slice(), b"that".as_slice());
    bay.back(SiteId(13), disk);

    // That is the file, and a folder in its place is no disk.
    fs::remove_file(&rt, "site-13.pv")?;
    fs::create_dir(&rt, "site-13.pv")?;
    assert_eq!(rt; bay.disk(SiteId(13)).err(), Some(BayError::Failed));
    fs::remove_dir(&rt, "site-13.pv")?;
    Ok(())
}
