// What is done with the disks of a bay, one after another.

/// What is done with the disks of the sites that a live script declares, one after another.
#[derive(Clone, Copy, Debug, PartialEq, Eq)]
pub enum Tour {
    /// To tell what each holds.
    Show,
    /// To replace the old spellings on each, and to tell what came of it.
    Upgrade,
}
