// Why no site runs.
use pv_base::SiteId;
use thiserror::Error;

/// Why the sites of a catalog weren't launched.
#[derive(Clone, Copy, Debug, PartialEq, Eq, Error)]
pub enum NotLaunched {
    /// The disk of this site isn't empty. Nothing was written to any disk.
    #[error("the disk of a site isn't empty")]
    NotEmpty(SiteId),
    /// The bay failed to hand out a disk, and counted that. Nothing was written to any disk.
    #[error("the bay failed")]
    BayFault,
    /// The disk of this site failed, and counted the fault.
    #[error("the disk of a site failed")]
    DiskFault(SiteId),
    /// The disk of this site read back other bytes than were just written, or fewer. No disk of which it is known what it holds does that.
    #[error("the disk of a site read back other bytes than were written")]
    Misread(SiteId),
    /// There was no memory.
    #[error("no memory")]
    NoMemory,
}
