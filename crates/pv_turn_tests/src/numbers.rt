// A value with entries, for the tests: numbers that are added one by one.
ghost use Rattle.std.specs.Prelude.{◌≡◌, ◌∷◌, [], ◌++◌, OnErr, OnOk};

use pv_turn::Entries;
use std::alloc::{AllocFailed, Global};

/// Numbers, each of which is an entry.
#[derive(Drop)]
pub struct Numbers {
    pub all: Vec<u64>,
}

impl Entries for Numbers {
    type Entry = u64;

    ghost entries = { λ numbers. numbers.all.items };

    fn count(&self) -> u64 {
        self.all.len() as u64
    }
}

impl Numbers {
    /// No numbers yet.
    pub fn new(alloc: Global) -> Numbers {
        Numbers {
            all: Vec::new(alloc),
        }
    }

    /// One more number, if there is memory for it.
    pub fn add(&mut self, number: u64) -> Result<(), AllocFailed<u64>>
        ensures added { OnOk result (self.new.all.items ≡ self.old.all.items ++ number ∷ []) }
        ensures same { OnErr result (self.new.all.items ≡ self.old.all.items) }
    {
        self.all.push(number)
    }
}
