// The deciders of a run, and the messages between them.
ghost use Rattle.std.specs.Prelude.{◌≡◌, ◌≤◌, IfOk};
ghost use Rattle.pv_base.specs.declared.limits.TheConstants.{MAX_JOURNAL};
ghost use Rattle.pv_law_decisions.specs.Scene.{at_first};
ghost use Rattle.pv_quorum.specs.DeciderState.{setup_of};
ghost use Rattle.pv_quorum_run.specs.Stands.{StandsFor};

use crate::cell::Cell;
use crate::mail::Mail;
use pv_base::NoMemory;
use std::alloc::Global;

/// All deciders of a run, each over a log in two areas on a disk in memory, and the messages between them.
#[derive(Drop)]
pub(crate) struct Table {
    /// Where its memory comes from.
    pub(crate) alloc: Global,
    /// How many deciders there are.
    pub(crate) count: u8,
    /// The deciders, by their numbers.
    pub(crate) cells: Vec<Cell>,
    /// Every message that was sent.
    pub(crate) mail: Mail,
}

impl Table {
    // So many deciders as a run begins: all are up, and nothing was sent.
    pub(crate) fn new(alloc: Global, count: u8) -> Result<Table, NoMemory>
        requires fewest { 3 ≤ count }
        requires most { count ≤ 5 }
        ensures stands { IfOk result (λ table. StandsFor table (at_first (setup_of count MAX_JOURNAL))) }
        ensures count { IfOk result (λ table. table.count ≡ count) }
    {
        let mut cells = Vec::with_capacity(alloc, count as usize)?;
        for me in 0..count {
            cells.push_reserved(Cell::open(alloc, me, count)?);
        }
        Ok(Table {
            alloc,
            count,
            cells,
            mail: Mail::new(alloc),
        })
    }
}
