// What workers visit.
ghost use mathlib.Core.List.{IsPrefix};

use pv_turn::Entries;

/// A value that takes in what has come to it, one input at each visit. Its entries only grow.
pub trait Visited: Entries {
    /// Takes in at most one input, and tells whether one was taken.
    fn visit(&mut self) -> bool
        ensures { IsPrefix (Self.entries self.old) (Self.entries self.new) };
}
