// What came of a visit.

/// What came of a visit to a box.
#[derive(Clone, Copy, Debug, PartialEq, Eq)]
pub enum Visit {
    /// An input was taken, and the history has its entry.
    Took,
    /// There was nothing to take: this visit asked every ring into the box, none gave anything, no message was left to count again, and no
    /// tick was due. Of the looks at the rings themselves contracts don't tell.
    Idle,
    /// The history has all entries that it may have, or no stamp is left. Nothing is taken any more.
    Worn,
    /// The step, or the box before it, found no memory, and the input is lost. Where it is a request its client hears of it.
    Lost,
    /// What was taken is nothing that this ring may bring, and is passed over.
    Stray,
}
