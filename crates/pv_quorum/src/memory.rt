// What a decider knows, by transaction.
ghost use Rattle.std.specs.Prelude.{◌≡◌, ◌<◌, [], if◌then◌else◌, OnOk};
ghost use Rattle.pv_base.specs.Assignment.{is_same_txn};
ghost use Rattle.pv_base.specs.declared.txn.TxnId.{TxnId};
ghost use Rattle.pv_quorum.specs.MemoryView.{known_at};

use crate::known::Known;
use indexmap::IndexMap;
use pv_base::{NoMemory, TxnId};
use std::alloc::Global;
use std::marker::Model;

/// What a decider knows of each transaction.
#[derive(Drop)]
pub(crate) struct Memory {
    /// By transaction. Of those that have no entry nothing is known.
    txns: IndexMap<TxnId, Known>,
}

impl Model for Memory {
    ghost use Rattle.indexmap.specs.IndexMap.{spare};
    ghost use Rattle.pv_quorum.specs.MemoryView.{Remembered};

    ghost Value = { Remembered };

    ghost view = { λ s. record { known = s.txns.entries; room = spare s.txns } };
}

impl Memory {
    // Nothing is known.
    pub(crate) fn new(alloc: Global) -> Memory
        ensures { result.known ≡ [] }
    {
        Memory {
            txns: IndexMap::new(alloc),
        }
    }

    // What is known of the transaction.
    pub(crate) fn known(&self, txn: TxnId) -> Known
        ensures { result ≡ known_at self.now.known txn }
    {
        self.txns.get(&txn).copied().unwrap_or(Known::nothing())
    }

    // Makes room for one more transaction.
    pub(crate) fn reserve(&mut self) -> Result<(), NoMemory>
        ensures same { self.new.known ≡ self.old.known }
        ensures room { OnOk result (0 < self.new.room) }
    {
        self.txns.reserve(1)?;
        Ok(())
    }

    // Takes note of what is known of a transaction.
    pub(crate) fn put(&mut self, txn: TxnId, known: Known)
        requires { 0 < self.old.room }
        ensures { (other : TxnId) → known_at self.new.known other ≡ (if is_same_txn other txn then known else known_at self.old.known other) }
    {
        let _ = self.txns.insert(txn, known);
    }
}
