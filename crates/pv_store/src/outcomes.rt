// The outcomes that are known.
ghost use Rattle.std.specs.Prelude.{◌≡◌, ◌<◌, ◌≤◌, ◌+◌, [], Some, None, is_none, ◌&&◌, if◌then◌else◌, OnOk};
ghost use Rattle.pv_base.specs.Assignment.{is_same_txn};
ghost use Rattle.pv_base.specs.declared.txn.TxnId.{TxnId};
ghost use Rattle.pv_store.specs.Held.{outcome_in};

use indexmap::IndexMap;
use pv_base::{NoMemory, TxnId};
use std::alloc::Global;
use std::marker::Model;

/// The outcomes that are known.
#[derive(Drop)]
pub(crate) struct Outcomes {
    outcomes: IndexMap<TxnId, bool>,
}

impl Model for Outcomes {
    ghost use Rattle.indexmap.specs.IndexMap.{spare};
    ghost use Rattle.pv_store.specs.Held.{KnownOutcomes};

    ghost Value = { KnownOutcomes };

    ghost view = { λ s. record { outcomes = s.outcomes.entries; room = spare s.outcomes } };
}

impl Outcomes {
    /// None is known.
    pub(crate) fn new(alloc: Global) -> Outcomes
        ensures { result.outcomes ≡ [] }
    {
        Outcomes {
            outcomes: IndexMap::new(alloc),
        }
    }

    /// The outcome of the transaction, if it is known.
    pub(crate) fn get(&self, txn: TxnId) -> Option<bool>
        ensures { result ≡ outcome_in self.now.outcomes txn }
    {
        self.outcomes.get(&txn).copied()
    }

    /// Makes room for so many more.
    pub(crate) fn reserve(&mut self, more: usize) -> Result<(), NoMemory>
        ensures same { self.new.outcomes ≡ self.old.outcomes }
        ensures room { OnOk result (more ≤ self.new.room) }
        ensures kept { self.old.room ≤ self.new.room }
    {
        self.outcomes.reserve(more)?;
        Ok(())
    }

    /// Takes note of the transaction's outcome, if none is known.
    pub(crate) fn add(&mut self, txn: TxnId, commits: bool)
        requires { 0 < self.old.room }
        ensures room { self.old.room ≤ self.new.room + 1 }
        ensures added { (other : TxnId) → outcome_in self.new.outcomes other ≡
            (if is_same_txn other txn && is_none (outcome_in self.old.outcomes txn) then Some commits else outcome_in self.old.outcomes other) }
    {
        if self.get(txn).is_none() {
            let _ = self.outcomes.insert(txn, commits);
        }
    }
}
