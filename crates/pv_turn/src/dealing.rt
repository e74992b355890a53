// A new turn, and its seats.
ghost use Rattle.std.specs.Prelude.{◌≡◌, ℕ, ◌+◌, ◌<◌, ◌≤◌, [], length, vec_len, vec_capacity, All, IfOk, IfErr};
ghost use Rattle.pv_turn.specs.Rule.{rests};
ghost use Rattle.pv_turn.specs.Seats.{IsSeatOf, IsNew, Rests, seats_of, seen};

use crate::entries::Entries;
use crate::rule::Opening;
use crate::seat::Seat;
use crate::steps::Deals;
use crate::turn::Turn;
use crate::view::View;
use atomic_table::{Refused, Table};
use pv_base::Remembered;
use std::alloc::Global;

// The seat that has this token.
fn seat_of<V, E>(token: atomic_table::Seat<Option<V>, View<E>>) -> Seat<V, E>
    requires { token.me.0.parts ≡ 1 }
    ensures { result.token ≡ token }
{
    Seat { token }
}

impl<V: Entries + Drop> Turn<V> {
    /// A turn over this value, with so many seats, each of which has seen the value's entries and rests. Without memory the value comes
    /// back.
    pub fn new(alloc: Global, value: V, seats: u32) -> Result<(Turn<V>, Vec<Seat<V, V::Entry>>), V>
        requires { 0 < seats }
        ensures count { IfOk result (λ made. (seats_of made.0 ≡ seats) × (vec_len made.1 ≡ seats)) }
        ensures seats { IfOk result (λ made. All (IsNew V.entries made.0 value) made.1.items) }
        ensures back { IfErr result (λ refused. refused ≡ value) }
    {
        let count = value.count();
        let Ok(dealt) = Vec::with_capacity(alloc, seats as usize) else {
            return Err(value);
        };
        let Ok(mut slots) = Vec::with_capacity(alloc, 1) else {
            return Err(value);
        };
        let opening = Opening {
            seats: seats as u64,
            value: Remembered::of(&value),
        };
        slots.push_reserved(Some(value));
        match Table::new(alloc, &[0, count], slots, &opening) {
            Ok((table, first)) => {
                let turn = Turn { table };
                let dealt = turn.deal(first, dealt, seats);
                Ok((turn, dealt))
            }
            Err(Refused { mut slots }) => Err(slots.pop().unwrap().unwrap()),
        }
    }

    // Cuts all seats off the first, which stands for all of them.
    fn deal(
        &self,
        first: atomic_table::Seat<Option<V>, View<V::Entry>>,
        dealt: Vec<Seat<V, V::Entry>>,
        count: u32,
    ) -> Vec<Seat<V, V::Entry>>
        requires mine { first.table_id ≡ self.now.table.shared.table_id }
        requires rests { (first.me.0.stage ≡ rests) × (first.me.1 ≡ []) }
        requires whole { (first.me.0.parts ≡ count) × (0 < count) }
        requires room { (dealt.items ≡ []) × (count ≤ vec_capacity dealt) }
        ensures count { vec_len result ≡ count }
        ensures seats { All (λ seat. IsSeatOf self.now seat × Rests seat × (seen seat ≡ first.me.0.seen)) result.items }
    {
        let mut first = first;
        let mut dealt = dealt;
        let mut left = count;
        while left > 1 {
            dealt.push_reserved(seat_of(self.table.shared.split_seat::<Deals>(&mut first)));
            left -= 1;
        }
        dealt.push_reserved(seat_of(first));
        dealt
    }
}
