// The end of a ring by which messages go out.
ghost use Rattle.std.specs.Prelude.{◌≡◌, length};
ghost use Rattle.rtrb.specs.Ring.{producer_capacity};
ghost use Rattle.pv_post.specs.Plan.{since_due};
ghost use Rattle.pv_post.specs.declared.ring.TheConstants.{PLACES};

use crate::fault_plan::{FaultPlan, count_on, fits};
use crate::posted::Posted;
use crate::ring::Counted;
use pv_base::History;
use rtrb::{Producer, PushError};
use std::alloc::Global;

/// The end that posts. It may go to a thread of its own.
///
/// It numbers its posts from 1, and its plan speaks of these numbers. Contracts also see all messages that were offered to it (`offered`),
/// and those that it put into the ring, each with how often it counts (`posted`).
#[derive(Drop)]
pub struct Out<M: Drop> {
    pub(crate) ring: Producer<(M, u8), Global, Counted>,
    pub(crate) plan: FaultPlan,
    pub(crate) offered: History<M>,
    since_drop: u32,
    since_double: u32,
    ghost places: { producer_capacity ring ≡ PLACES },
    ghost dropping: { since_drop ≡ since_due plan.drop_each (length offered.items) },
    ghost doubling: { since_double ≡ since_due plan.double_each (length offered.items) },
}

impl<M: Drop> Out<M> {
    ghost use Rattle.std.specs.Prelude.{◌≡◌, ◌+◌, ◌<◌, ◌≤◌, [], ◌∷◌, ◌++◌};
    ghost use Rattle.rtrb.specs.Ring.{producer_capacity};
    ghost use Rattle.pv_post.specs.declared.ring.TheConstants.{PLACES};
    ghost use Rattle.pv_post.specs.Ends.{offered, free, SameOut};
    ghost use Rattle.pv_post.specs.Posted.{IsPosted, IsFull};

    pub(crate) fn new(ring: Producer<(M, u8), Global, Counted>, plan: FaultPlan) -> Out<M>
        requires { producer_capacity ring ≡ PLACES }
        ensures { (result.ring ≡ ring) × (result.plan ≡ plan) × (result.offered.items ≡ []) }
    {
        Out {
            ring,
            plan,
            offered: History::new(),
            since_drop: 0,
            since_double: 0,
        }
    }

    /// Posts a message: it is lost where the plan says so, and else put into the ring, unless this end finds no free place there. A place
    /// that is known to be free is free, and the others stay known. Contracts don't tell of the look at the ring itself, which a test
    /// shows: a place that was freed is found without any other call.
    pub fn post(&mut self, message: M) -> Posted<M>
        ensures ring { SameOut self.old self.new }
        ensures offered { offered self.new ≡ offered self.old ++ message ∷ [] }
        ensures posted { IsPosted self.old self.new message result }
        ensures free { 0 < free self.old → IsFull result → ⊥ }
        ensures kept { free self.old ≤ free self.new + 1 }
    {
        self.offered = self.offered.and(&message);
        self.since_drop = count_on(self.plan.drop_each, self.since_drop);
        self.since_double = count_on(self.plan.double_each, self.since_double);
        if fits(self.plan.drop_each, self.since_drop) {
            return Posted::Dropped(message);
        }
        let twice = fits(self.plan.double_each, self.since_double);
        let count = if twice { 2 } else { 1 };
        match self.ring.push((message, count)) {
            Ok(()) if twice => Posted::Twice,
            Ok(()) => Posted::Once,
            Err(PushError::Full((message, _))) => Posted::Full(message),
        }
    }
}
