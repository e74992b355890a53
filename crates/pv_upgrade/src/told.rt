// What comes of the upgrade of a site's log.

/// What came of the upgrade of a site's log.
#[derive(Clone, Copy, Debug, PartialEq, Eq)]
pub enum Upgrade {
    /// So many old spellings were replaced.
    Upgraded(u64),
    /// With the old spellings replaced the log would have this length, above its limit.
    Full(u64),
    /// There are old spellings, and the log's numbers are used up.
    Spent,
    /// The disk holds no log in two areas, which shows at this place.
    NotOurs(u64),
    /// The content with this index is the first that is read as no record.
    BadRecord(u64),
    /// The disk failed.
    Failed,
}
