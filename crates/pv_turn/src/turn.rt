// A turn.
ghost use Rattle.std.specs.Prelude.{◌≡◌, ◌<◌};

use crate::entries::Entries;
use crate::rule::{Opening, Rule};
use crate::view::View;
use atomic_table::Table;
use std::alloc::Global;

/// A value that threads have in turn. Each has a [`Seat`](crate::Seat) of it.
///
/// Its first word is 1 while the turn is held and 0 while it is free, and its second one counts the value's entries. Its slot has the
/// value while nobody has it.
#[derive(Drop)]
pub struct Turn<V: Entries + Drop> {
    pub(crate) table: Table<Option<V>, View<V::Entry>, Opening<V>, Rule<V>, Global>,
    ghost sized: { (table.shared.table_id.words ≡ 2) × (table.shared.table_id.slots ≡ 1) },
    ghost seated: { 0 < table.shared.key.seats },
}
