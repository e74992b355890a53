// What disks hold.
use pv_ckpt::{CkptLog, look};
use pv_disk::MemDisk;
use std::alloc::Global;
use std::test::Fail;

/// The disks of these logs.
pub(crate) fn disks_of(alloc: Global, logs: Vec<CkptLog<MemDisk>>) -> Result<Vec<MemDisk>, Fail> {
    let mut disks = Vec::new(alloc);
    for log in logs {
        disks.push(log.close())?;
    }
    Ok(disks)
}

/// What the logs on these disks hold, as it is debugged.
pub(crate) fn records_of(alloc: Global, disks: Vec<MemDisk>) -> Result<String, Fail> {
    let mut records = String::new(alloc);
    for disk in disks {
        push_records(alloc, &mut records, disk)?;
    }
    Ok(records)
}

// What the log on this disk holds.
fn push_records(alloc: Global, records: &mut String, disk: MemDisk) -> Result<(), Fail> {
    let mut disk = disk;
    match look(alloc, &mut disk) {
        Ok(contents) => records.push_str(&format!(in alloc; "{contents:?}\n")?)?,
        Err(_) => return Err("a disk holds a log".into()),
    }
    Ok(())
}
