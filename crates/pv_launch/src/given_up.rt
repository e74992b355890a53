// What is left where no site runs.
use crate::NotLaunched;
use pv_disk::Disk;

/// The disks that are out, in the order of their sites, and why they go back.
#[derive(Drop)]
pub(crate) struct GivenUp<D: Disk> {
    /// The disks of the first sites, or of all.
    pub(crate) disks: Vec<D>,
    /// Why they go back.
    pub(crate) why: NotLaunched,
}
