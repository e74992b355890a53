// The next message that one of several rings holds.
use pv_post::In;

/// A message that a ring gave.
#[derive(Drop)]
pub struct Found<M: Drop> {
    /// The place of the ring among all.
    pub ring: usize,
    /// The message.
    pub message: M,
    /// How often it counts.
    pub count: u8,
}

ghost use Rattle.std.specs.Prelude.{◌≤◌, length, IfSome, IfNone};
ghost use Rattle.pv_rings.specs.Rings.{AreFoundEmpty, GivesOne, IsFirst};

/// What the first ring gives that holds something, among the rings from the one place up to the other. Each is looked at once at most, in turn.
pub fn take_among<M: Drop>(rings: &mut Vec<In<M>>, from: usize, to: usize) -> Option<Found<M>>
    requires { (from ≤ to) × (to ≤ length rings.old.items) }
    ensures some { IfSome result (λ found. GivesOne found.ring found.message found.count rings.old.items rings.new.items) }
    ensures turn { IfSome result (λ found. IsFirst from to found.ring rings.old.items rings.new.items) }
    ensures none { IfNone result (AreFoundEmpty from to rings.old.items rings.new.items) }
{
    for ring in from..to {
        if let Some((message, count)) = rings[ring].take() {
            return Some(Found {
                ring,
                message,
                count,
            });
        }
    }
    None
}
