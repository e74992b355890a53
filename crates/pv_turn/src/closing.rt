// The end of a turn.
ghost use Rattle.std.specs.Prelude.{◌≡◌, ℕ, ◌<◌, [], vec_len, All};
ghost use mathlib.Core.List.{IsPrefix};
ghost use Rattle.pv_turn.specs.Rule.{rests};
ghost use Rattle.pv_turn.specs.Seats.{IsSeatOf, Rests, seats_of, seen, BeginsWith};

use crate::entries::Entries;
use crate::seat::Seat;
use crate::steps::{Deals, Looks};
use crate::turn::Turn;
use crate::view::View;

impl<V: Entries + Drop> Turn<V> {
    /// Ends a turn of which all seats are at hand and rest. The value's entries begin with all that any of them had seen.
    pub fn close(self, seats: Vec<Seat<V, V::Entry>>) -> V
        requires whole { vec_len seats ≡ seats_of self }
        requires mine { All (λ seat. IsSeatOf self seat × Rests seat) seats.items }
        ensures { All (BeginsWith (V.entries result)) seats.items }
    {
        let whole = self.gather(seats);
        let Turn { table } = self;
        let mut closed = table.close_with(whole);
        let value = closed.take(0).unwrap();
        closed.free();
        value
    }

    // One seat that stands for all these.
    fn gather(&self, seats: Vec<Seat<V, V::Entry>>) -> atomic_table::Seat<Option<V>, View<V::Entry>>
        requires some { 0 < vec_len seats }
        requires mine { All (λ seat. IsSeatOf self.now seat × Rests seat) seats.items }
        ensures mine { result.table_id ≡ self.now.table.shared.table_id }
        ensures rests { (result.me.0.stage ≡ rests) × (result.me.1 ≡ []) }
        ensures whole { result.me.0.parts ≡ vec_len seats }
        ensures seen { All (BeginsWith result.me.0.seen) seats.items }
    {
        let mut seats = seats;
        let Seat { token: mut whole } = seats.pop().unwrap();
        while let Some(Seat { token }) = seats.pop() {
            self.table.shared.join_seat::<Deals>(&mut whole, token);
            // The two had seen beginnings of one list: a look shows the longest.
            self.table.shared.load::<Looks>(&mut whole, 1);
        }
        whole
    }
}
