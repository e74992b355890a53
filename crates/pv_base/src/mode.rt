// What a crash leaves of the bytes that weren't synced.

/// What a stop or a fault in a write or a sync leaves of the bytes written since the last sync, those of the write itself
/// too.
#[derive(Clone, Copy, Debug, PartialEq, Eq)]
pub enum Mode {
    /// They are gone.
    Lost,
    /// They are all there.
    Kept,
    /// They are there, but each is 165.
    Torn,
}
