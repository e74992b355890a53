// What C gets where it asked for bytes.

/// What C gets where it asked for bytes.
#[derive(Clone, Copy)]
pub struct Numbers {
    /// The status.
    pub status: u32,
    /// How many bytes were written, or would have been with more room.
    pub count: usize,
    /// Where they go.
    pub to: u64,
}
