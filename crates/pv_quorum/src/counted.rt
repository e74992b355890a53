// Which deciders a proposer has counted.
ghost use Rattle.std.specs.Prelude.{◌≡◌, ◌<◌, ◌≤◌, ◌==◌, ◌||◌, ℕ};
ghost use Rattle.pv_law_quorum.specs.Ballot.{is_majority, number_of};
ghost use Rattle.pv_quorum.specs.Knows.{marked};

/// The greatest count of deciders.
pub(crate) const MAX_DECIDERS: usize = 5;

/// The deciders that were counted.
#[derive(Clone, Copy, Debug)]
pub(crate) struct Counted {
    /// For each decider, whether it was.
    deciders: [bool; MAX_DECIDERS],
}

impl Counted {
    // This one alone.
    pub(crate) fn only(decider: u8) -> Counted
        requires { decider < 5 }
        ensures { (n : ℕ) → marked result.deciders n ≡ (n == decider) }
    {
        let mut deciders = [false; MAX_DECIDERS];
        deciders[usize::from(decider)] = true;
        Counted { deciders }
    }

    // These and this one.
    pub(crate) fn and(self, decider: u8) -> Counted
        requires { decider < 5 }
        ensures { (n : ℕ) → marked result.deciders n ≡ (n == decider || marked self.deciders n) }
    {
        let mut deciders = self.deciders;
        deciders[usize::from(decider)] = true;
        Counted { deciders }
    }

    // Whether this one is among them.
    pub(crate) fn has(self, decider: u8) -> bool
        requires { decider < 5 }
        ensures { result ≡ marked self.deciders decider }
    {
        self.deciders[usize::from(decider)]
    }

    // Whether they are more than half of so many deciders.
    pub(crate) fn is_majority(self, count: u8) -> bool
        requires { count ≤ 5 }
        ensures { result ≡ is_majority count (marked self.deciders) }
    {
        2 * self.number(count) > count
    }

    // How many of the first deciders, so many, are among them.
    fn number(self, count: u8) -> u8
        requires { count ≤ 5 }
        ensures number { result ≡ number_of (marked self.deciders) count }
        ensures small { result ≤ 5 }
    {
        let mut number = 0;
        for decider in 0..count {
            number += u8::from(self.has(decider));
        }
        number
    }
}
