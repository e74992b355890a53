// Why a log in two areas wasn't opened.
use pv_disk::Disk;

/// Why a log in two areas wasn't opened. The disk comes back in each case.
#[derive(Drop)]
pub enum OpenCkpt<D: Disk> {
    /// The disk failed, and counted the fault.
    Failed(D),
    /// The disk holds no log in two areas. The place is the first of these that fits:
    /// - one of the first 8 bytes is missing or isn't as it is to be: the first such place;
    /// - one of the first 59 bytes is missing: the disk's length;
    /// - neither root is open: 8;
    /// - the root in force has a place out of its range, a block or the gate after it past the end, or lengths that don't fill the
    ///   block: where that root stands, 8 or 33;
    /// - an open gate is followed by a length, a content or a next gate past the end: where that gate stands.
    NotOurs(D, u64),
    /// There was no memory.
    NoMemory(D),
}
