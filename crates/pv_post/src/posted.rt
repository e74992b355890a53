// What becomes of a message that is posted.

/// What became of a message that was posted.
#[derive(Debug, Drop, PartialEq, Eq)]
pub enum Posted<M> {
    /// The plan of the ring loses it, and it comes back.
    Dropped(M),
    /// The ring had no free place, and the message comes back.
    Full(M),
    /// It is in the ring, and counts once.
    Once,
    /// It is in the ring, and counts twice.
    Twice,
}
