// Lists in which no value stands twice.
ghost use Rattle.std.specs.Prelude.{◌≡◌, [], IfOk, OnOk};
ghost use Rattle.pv_query.specs.Repeats.{with_new};

use indexmap::IndexSet;
use pv_base::{Exact, NoMemory};
use std::alloc::Global;
use std::hash::Hash;
use std::marker::Model;

/// Values in the order in which they first came, each once.
#[derive(Drop)]
pub struct Distinct<V: Exact + Hash> {
    values: IndexSet<V>,
}

impl<V: Exact + Hash> Model for Distinct<V> {
    ghost use Rattle.std.specs.Prelude.{List};

    ghost Value = { List V };

    ghost view = { λ distinct. distinct.values.keys };
}

impl<V: Exact + Hash> Distinct<V> {
    /// No value came.
    pub fn new(alloc: Global) -> Distinct<V>
        ensures { result ≡ [] }
    {
        Distinct {
            values: IndexSet::new(alloc),
        }
    }

    /// Appends the value, unless it is there.
    pub fn push(&mut self, value: V) -> Result<(), NoMemory>
        ensures { OnOk result (self.new ≡ with_new V.PartialEq.eq self.old value) }
    {
        self.values.insert(value)?;
        Ok(())
    }

    /// The values as a list.
    pub fn list(&self) -> Result<Vec<V>, NoMemory>
        ensures { IfOk result (λ list. list.items ≡ self.now) }
    {
        Ok(Vec::from_slice(*self.values.allocator(), self.values.as_slice())?)
    }
}
