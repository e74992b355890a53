// The rule of a turn.
ghost use Rattle.std.specs.Prelude.{[]};
ghost use Rattle.pv_turn.specs.Rule.{IsKept, view, rests};

use crate::entries::Entries;
use crate::view::View;
use atomic_table::TableRule;
use pv_base::Remembered;
use std::marker::PhantomData;

/// What a turn is told when it is made: how many seats it has, and its value as it then was.
#[derive(Drop)]
pub struct Opening<V> {
    pub seats: u64,
    pub value: Remembered<V>,
}

/// The rule of a turn over this value.
pub struct Rule<V> {
    of: PhantomData<V>,
}

impl<V: Entries> TableRule<Option<V>, View<V::Entry>, Opening<V>> for Rule<V> {
    ghost holds = { λ opening. IsKept V.entries opening.seats };

    ghost first = { λ opening. view (V.entries opening.value.value) [] rests opening.seats };
}
