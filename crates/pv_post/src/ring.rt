// Both ends of a new ring.
ghost use Rattle.std.specs.Prelude.{◌≡◌, [], IfOk};
ghost use Rattle.pv_post.specs.Ends.{IsCount, IsPair, plan_of, offered, posted, free, taken, known};

use crate::fault_plan::FaultPlan;
use crate::inlet::In;
use crate::outlet::Out;
use pv_base::NoMemory;
use rtrb::{Protocol, RingBuffer};
use std::alloc::Global;

/// How many messages a ring has room for.
pub const PLACES: usize = 256;

/// A ring has room for this many messages. The function does nothing: it states what the contracts call by the constant's name.
pub fn places_of_a_ring()
    ensures { PLACES ≡ 256 }
{}

/// What stands in a ring counts once or twice.
pub(crate) struct Counted;

impl<M> Protocol<(M, u8)> for Counted {
    ghost allows = { λ _ next. IsCount next.1 };
}

/// The ends of a new ring, on which messages fail as the plan says.
pub fn pair<M: Drop>(alloc: Global, plan: FaultPlan) -> Result<(Out<M>, In<M>), NoMemory>
    ensures pair { IfOk result (λ ends. IsPair ends.0 ends.1) }
    ensures out { IfOk result (λ ends. (plan_of ends.0 ≡ plan) × (offered ends.0 ≡ []) × (posted ends.0 ≡ []) × (free ends.0 ≡ PLACES)) }
    ensures inlet { IfOk result (λ ends. (taken ends.1 ≡ []) × (known ends.1 ≡ [])) }
{
    let (producer, consumer) = RingBuffer::with_protocol::<Global, Counted>(alloc, PLACES)?;
    Ok((Out::new(producer, plan), In { ring: consumer }))
}
