// Grants: what a site lets a transaction hold.

/// A grant of a site. Grants of one site are ordered by these two; no number is ever given twice.
#[derive(Clone, Copy, Debug, PartialEq, Eq, PartialOrd, Ord, Hash)]
pub struct GrantId {
    /// The epoch of the site in which it was given.
    pub epoch: u32,
    /// The number that the site gave it in that epoch, from 0.
    pub number: u32,
}
