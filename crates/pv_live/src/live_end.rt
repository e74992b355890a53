// How what is run live of a text ends.

/// How it ended to run a live script.
#[derive(Clone, Copy, Debug, PartialEq, Eq)]
pub enum LiveEnd {
    /// The whole text of the run was written.
    Done,
    /// The text is malformed, or has no client. Its first line at fault was named.
    Malformed,
    /// The output failed. A beginning of what was to be written was.
    WriteFault,
    /// There was no memory. Nothing was written, and disks may be gone. (Of a text that is refused it may be that a beginning of the refusal was.)
    NoMemory,
    /// The bay failed to hand out a disk; or a disk failed on which a site was to start, or read back other bytes than were written. Nothing was written.
    BayFault,
    /// A disk on which a site was to start isn't empty. Nothing was written, on the disks neither.
    NotEmpty,
}
