// Why a site wasn't started on a disk.
use pv_disk::Disk;

/// Why a site wasn't started on a disk. The disk comes back in each case.
#[derive(Drop)]
pub enum NotStarted<D: Disk> {
    /// The disk failed, and counted the fault.
    Failed(D),
    /// The disk read back other bytes than were just written, or fewer. No disk of which it is known what it holds does that.
    Misread(D),
    /// There was no memory.
    NoMemory(D),
}
