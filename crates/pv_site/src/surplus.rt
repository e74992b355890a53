// By how many bytes a log is longer than its records make it.
ghost use Rattle.std.specs.Prelude.{◌≡◌, ℕ};
ghost use Rattle.pv_replay.specs.Values.{contents_of, records_of};
ghost use Rattle.pv_site.specs.Surplus.{surplus_of};

use pv_base::Remembered;
use pv_replay::Record;
use std::alloc::Global;
use std::marker::Model;

// By how many bytes a log is longer than its records make it, since some were read from old spellings. Contracts read it as a number; at run
// time there is nothing.
#[derive(Drop)]
pub(crate) struct Surplus {
    /// What was read.
    contents: Remembered<Vec<Vec<u8>>>,
    /// As which records.
    records: Remembered<Vec<Record>>,
}

impl Model for Surplus {
    ghost Value = { ℕ };

    ghost view = { λ s. surplus_of (contents_of s.contents.value.items) (records_of s.records.value.items) };
}

impl Surplus {
    // That of a log with these contents, which are read as these records.
    pub(crate) fn of(contents: &Vec<Vec<u8>>, records: &Vec<Record>) -> Surplus
        ensures { result ≡ surplus_of (contents_of contents.now.items) (records_of records.now.items) }
    {
        Surplus {
            contents: Remembered::of(contents),
            records: Remembered::of(records),
        }
    }

    // That of a log whose records are as they are written.
    pub(crate) fn none(alloc: Global) -> Surplus
        ensures { result ≡ 0 }
    {
        Surplus::of(&Vec::new(alloc), &Vec::new(alloc))
    }
}
