// What each kind of step on a turn tells the seat that makes it. A turn has six kinds: it is taken, with its value; the value is set
// back, and its entries counted; it is released; a seat looks at the count; a seat is split; two seats are joined.
ghost use Rattle.std.specs.Prelude.{◌≡◌, [], ◌+◌, ◌-◌, ◌∷◌};
ghost use Rattle.pv_turn.specs.Rule.{view, rests};
ghost use Rattle.pv_turn.specs.Steps.{Takes as Took, SetsBack as IsBack, Releases as Released, Looks as Looked};

use crate::entries::Entries;
use crate::view::View;
use atomic_table::{Join, Play, Split};
use std::marker::PhantomData;

/// The turn is taken, if it is free.
pub struct Takes<V> {
    of: PhantomData<V>,
}

impl<V: Entries> Play<Option<V>, View<V::Entry>> for Takes<V> {
    ghost then = { λ _ before found after. Took V.entries before.0 found after };
}

/// The value is set back, and its entries are counted.
pub struct SetsBack<V> {
    of: PhantomData<V>,
}

impl<V: Entries> Play<Option<V>, View<V::Entry>> for SetsBack<V> {
    ghost then = { λ _ before _ after. IsBack V.entries before after };
}

/// The turn is free again.
pub struct Releases;

impl<V, E> Play<Option<V>, View<E>> for Releases {
    ghost then = { λ _ before _ after. Released before.0 after };
}

/// A seat looks at the count.
pub struct Looks;

impl<V, E> Play<Option<V>, View<E>> for Looks {
    ghost then = { λ _ before _ after. Looked before.0 after };
}

/// A seat is split in two, or two are joined.
pub struct Deals;

impl<E> Split<View<E>> for Deals {
    ghost left = { λ v. view v.seen v.told rests (v.parts - 1) };

    ghost right = { λ v. view v.seen v.told rests 1 };
}

impl<E> Join<View<E>> for Deals {
    ghost both = { λ v w. view v.seen w.seen rests (v.parts + w.parts) };

    ghost spent = { view [] [] rests 0 };
}
