// Ballots (Lamport, 1998).
ghost use Rattle.std.specs.Prelude.{◌≡◌};
ghost use Rattle.pv_law_quorum.specs.Ballot as law;
ghost use Rattle.pv_quorum.specs.Values.{ballot_of};

/// A ballot: a number, and the decider that made it. Ballots are ordered by these two.
#[derive(Clone, Copy, Debug, PartialEq, Eq)]
pub struct Ballot {
    /// The number: those that deciders make are from 1 to 4,294,967,294.
    pub number: u32,
    /// The decider, numbered from 0.
    pub decider: u8,
}

impl Ballot {
    // Whether it is below the other.
    pub(crate) fn is_below(self, other: Ballot) -> bool
        ensures { result ≡ law.is_below (ballot_of self) (ballot_of other) }
    {
        self.rank() < other.rank()
    }

    // Whether both are the same.
    pub(crate) fn is_same(self, other: Ballot) -> bool
        ensures { result ≡ law.is_same_ballot (ballot_of self) (ballot_of other) }
    {
        self.number == other.number && self.decider == other.decider
    }

    // Its place in the order of ballots: a decider is a byte, so 256 times the number leaves room for it.
    fn rank(self) -> u64
        ensures { result ≡ law.rank (ballot_of self) }
    {
        256 * u64::from(self.number) + u64::from(self.decider)
    }
}
