// How a tour of disks ends.

/// How a tour of the disks of a text's sites ended.
#[derive(Clone, Copy, Debug, PartialEq, Eq)]
pub(crate) enum TourEnd {
    /// What tells of each disk was written.
    Done,
    /// The text is malformed. Its first line at fault was named.
    Malformed,
    /// The output failed. A beginning of what was to be written was.
    WriteFault,
    /// There was no memory. A beginning of what was to be written was.
    NoMemory,
    /// The bay failed to hand out a disk. Nothing was written.
    BayFault,
}
