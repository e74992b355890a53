// The worked journal.
use pv_disk::{Disk, Log, LogError, LookError, MemDisk};
use pv_journal::*;
use std::test::Fail;

// Three records: epoch 1, a transaction prepared, and its commit. The gates are at 8, 18, 49 and 65.
const JOURNAL: [u8; 66] = *b"PVJRNL01\
    \x01\0\0\0\x05\x01\0\0\0\x01\
    \x01\0\0\0\x1a\x02\0\0\0\0\x01\0\0\0\0\x01\0\0\0\0\0\x01\0\0\0\0\0\0\0\0\x65\
    \x01\0\0\0\x0b\x03\0\0\0\0\x01\0\0\0\0\x01\
    \0";

const CONTENTS: &[&[u8]] = &[
    b"\x01\0\0\0\x01",
    b"\x02\0\0\0\0\x01\0\0\0\0\x01\0\0\0\0\0\x01\0\0\0\0\0\0\0\0\x65",
    b"\x03\0\0\0\0\x01\0\0\0\0\x01",
];

#[test]
fn the_worked_journal_is_read(rt: HostRuntime) -> Result<(), Fail> {
    let alloc = rt.alloc();
    let mut disk = MemDisk::of(alloc, JOURNAL.to_vec(alloc)?);
    let contents = look(alloc, &mut disk)?;
    assert!(rt; contents.len() == 3 && disk.calls() == 0);
    for (content, wanted) in contents.iter().zip(CONTENTS) {
        assert!(rt; content.as_slice() == *wanted);
    }

    let Ok(mut journal) = Journal::open(alloc, disk, 66) else {
        return Err(LookError::Failed.into());
    };
    assert!(rt; journal.length() == 66);
    assert!(rt; journal.reserve(5) == Err(LogError::Full(76)));
    Ok(())
}
