// What a host is told of the journal of its outbox.

/// What a host is told of the journal of its outbox. It has so many bytes in the host's file, up to and with its closed gate.
#[repr(C)]
#[derive(Clone, Copy, Debug, PartialEq, Eq)]
pub struct JournalInfo {
    /// How many bytes of the journal are in the host's file, by what the host has told.
    pub stored: u64,
    /// How many there are once the host has written all that the outbox has asked for.
    pub asked: u64,
    /// How many there may be.
    pub limit: u64,
}
