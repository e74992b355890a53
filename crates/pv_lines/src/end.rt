// How a command over a script ends, apart from how the script was read.

/// How the run of a script in memory ended.
#[derive(Clone, Copy, Debug, PartialEq, Eq)]
pub enum ScriptEnd {
    /// The whole was written.
    Done,
    /// The text is malformed. Its first line at fault was named.
    Malformed,
    /// The output failed. A beginning of what was to be written was.
    WriteFault,
    /// There was no memory. A beginning of what was to be written was.
    NoMemory,
}
