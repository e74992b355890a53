// Where what C gave is at fault.

/// Where what C gave is at fault: zeroes where that isn't told.
#[repr(C)]
#[derive(Clone, Copy)]
pub struct Fault {
    /// The line, from 1.
    pub line: u32,
    /// The column of a program's text, from 1.
    pub column: u32,
    /// A place, an index or a count, as the status says.
    pub number: u64,
}
