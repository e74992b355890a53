// Why a journal wasn't opened.
use pv_disk::Disk;
use std::error::Error;
use std::fmt;

/// Why a journal wasn't opened. The disk comes back in each case.
#[derive(Drop)]
pub enum OpenLog<D: Disk> {
    /// The disk failed, and counted the fault.
    Failed(D),
    /// The disk holds no journal. Of the header and the first gate the place is that of the first byte that is missing or
    /// isn't the header's; else it is that of an open gate whose length, content or next gate is past the end.
    NotOurs(D, u64),
    /// There was no memory.
    NoMemory(D),
}

// Without the disk.
impl<D: Disk> fmt::Debug for OpenLog<D> {
    fn fmt<W: fmt::Write>(&self, f: &mut fmt::Formatter<W>) -> fmt::Result {
        match self {
            OpenLog::Failed(_) => f.write_str("Failed(..)"),
            OpenLog::NotOurs(_, place) => write!(f, "NotOurs(.., {place})"),
            OpenLog::NoMemory(_) => f.write_str("NoMemory(..)"),
        }
    }
}

impl<D: Disk> fmt::Display for OpenLog<D> {
    fn fmt<W: fmt::Write>(&self, f: &mut fmt::Formatter<W>) -> fmt::Result {
        match self {
            OpenLog::Failed(_) => f.write_str("the disk failed"),
            OpenLog::NotOurs(_, place) => write!(f, "not ours at {place}"),
            OpenLog::NoMemory(_) => f.write_str("no memory"),
        }
    }
}

impl<D: Disk> Error for OpenLog<D> {}
