// What a host is told of its site.

/// What a host is told of its site. Its journal has so many bytes in the host's file, up to and with its closed gate.
#[repr(C)]
#[derive(Clone, Copy, Debug, PartialEq, Eq)]
pub struct SiteInfo {
    /// How many bytes of the journal are in the host's file, by what the host has told.
    pub stored: u64,
    /// How many there are once the host has written all that the site has asked for.
    pub asked: u64,
    /// How many there may be.
    pub limit: u64,
    /// The epoch in which the site was opened, or 0 while something is to be written: a crash may undo it.
    pub epoch: u32,
    /// How many records are in the host's file, by what the host has told; or [`u32::MAX`] where there are more, for which no journal within
    /// [`MAX_JOURNAL`](pv_base::MAX_JOURNAL) has room.
    pub records: u32,
}
