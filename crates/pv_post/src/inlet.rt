// The end of a ring by which messages come in.
ghost use Rattle.std.specs.Prelude.{◌≡◌};
ghost use Rattle.rtrb.specs.Ring.{consumer_capacity};
ghost use Rattle.pv_post.specs.declared.ring.TheConstants.{PLACES};

use crate::outlet::Out;
use crate::ring::Counted;
use rtrb::Consumer;
use std::alloc::Global;

/// The end that takes. It may go to a thread of its own.
///
/// Contracts see the messages that it took (`taken`), and those that it has seen in the ring and not taken yet (`known`).
#[derive(Drop)]
pub struct In<M: Drop> {
    pub(crate) ring: Consumer<(M, u8), Global, Counted>,
    ghost places: { consumer_capacity ring ≡ PLACES },
}

impl<M: Drop> In<M> {
    ghost use Rattle.std.specs.Prelude.{◌≡◌, ◌+◌, ◌<◌, ◌≤◌, [], ◌∷◌, ◌++◌, length, IfSome, IfNone, IsSome};
    ghost use mathlib.Core.List.{IsPrefix};
    ghost use Rattle.pv_post.specs.Ends.{IsCount, IsPair, SameIn, SameOut, offered, posted, free, taken, known};
    ghost use Rattle.pv_post.specs.declared.ring.TheConstants.{PLACES};

    /// The next message, and how often it counts, or `None` where the ring held none at this call. A message that is known to be there
    /// is taken, and those behind it stay known. Contracts don't tell of the look at the ring itself, which the test shows: a message that was posted is taken without
    /// any other call.
    pub fn take(&mut self) -> Option<(M, u8)>
        ensures ring { SameIn self.old self.new }
        ensures some { IfSome result (λ next. (taken self.new ≡ taken self.old ++ next ∷ []) × IsCount next.1
            × IsPrefix (known self.old) (next ∷ known self.new)) }
        ensures none { IfNone result ((taken self.new ≡ taken self.old) × (known self.new ≡ [])) }
        ensures there { 0 < length (known self.old) → IsSome result }
    {
        self.ring.pop().ok()
    }

    /// How many messages the ring holds, for a thread that has both ends. It takes and posts nothing. What was taken and then what is known
    /// to be in the ring are all that was posted, in order, and all other places are known to be free.
    pub fn beside(&mut self, out: &mut Out<M>) -> usize
        requires { IsPair out.old self.old }
        ensures ring { SameIn self.old self.new × SameOut out.old out.new }
        ensures taken { taken self.new ≡ taken self.old }
        ensures posted { (posted out.new ≡ posted out.old) × (offered out.new ≡ offered out.old) }
        ensures all { taken self.new ++ known self.new ≡ posted out.new }
        ensures count { result ≡ length (known self.new) }
        ensures room { (result ≤ PLACES) × (PLACES ≤ free out.new + result) }
    {
        // This look comes first, since messages that it shows would not be counted after the other.
        out.ring.slots_beside(&mut self.ring);
        self.ring.slots_beside(&mut out.ring)
    }
}
