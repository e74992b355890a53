// Taking a turn, and giving it back.
ghost use Rattle.std.specs.Prelude.{◌≡◌};
ghost use mathlib.Core.List.{IsPrefix};
ghost use Rattle.pv_turn.specs.Seats.{IsSeatOf, Rests, Holds, seen};

use crate::entries::Entries;
use crate::seat::Seat;
use crate::steps::{Releases, SetsBack, Takes};
use crate::turn::Turn;
use std::sync::Wait;
use std::thread;

impl<V: Entries + Drop> Turn<V> {
    /// Waits until the turn is free, and takes it with its value. The value's entries begin with all that this seat had seen.
    pub fn take<R: Wait>(&self, rt: &R, seat: &mut Seat<V, V::Entry>) -> V
        requires mine { IsSeatOf self.now seat.old }
        requires rests { Rests seat.old }
        ensures mine { IsSeatOf self.now seat.new }
        ensures holds { Holds seat.new }
        ensures entries { IsPrefix (seen seat.old) (V.entries result) }
        ensures seen { seen seat.new ≡ V.entries result }
    {
        let shared = &self.table.shared;
        for _ in rt.forever() {
            let found = shared.compare_exchange::<Takes<V>>(&mut seat.token, 0, 0, 1);
            if found == 0 {
                return shared.exchange(&mut seat.token, 0, None).unwrap();
            }
            thread::yield_now();
        }
        unreachable!()
    }

    /// Gives the turn back with its value, whose entries begin with those that this seat has seen.
    pub fn give(&self, seat: &mut Seat<V, V::Entry>, value: V)
        requires mine { IsSeatOf self.now seat.old }
        requires holds { Holds seat.old }
        requires entries { IsPrefix (seen seat.old) (V.entries value) }
        ensures mine { IsSeatOf self.now seat.new }
        ensures rests { Rests seat.new }
        ensures seen { seen seat.new ≡ V.entries value }
    {
        let shared = &self.table.shared;
        let count = value.count();
        let None = shared.exchange(&mut seat.token, 0, Some(value)) else {
            unreachable!()
        };
        // The value is back before the turn is free.
        shared.store::<SetsBack<V>>(&mut seat.token, 1, count);
        shared.store::<Releases>(&mut seat.token, 0, 0);
    }
}
