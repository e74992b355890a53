// The transactions that are prepared.
ghost use Rattle.std.specs.Prelude.{◌≡◌, ◌<◌, ◌≤◌, ◌+◌, ◌||◌, [], OnOk};
ghost use Rattle.pv_base.specs.Assignment.{is_same_txn};
ghost use Rattle.pv_base.specs.declared.txn.TxnId.{TxnId};
ghost use Rattle.pv_store.specs.Held.{is_promised};

use indexmap::IndexSet;
use pv_base::{NoMemory, TxnId};
use std::alloc::Global;
use std::marker::Model;

/// The transactions that are prepared.
#[derive(Drop)]
pub(crate) struct Promises {
    txns: IndexSet<TxnId>,
}

impl Model for Promises {
    ghost use Rattle.indexmap.specs.IndexSet.{spare};
    ghost use Rattle.pv_store.specs.Held.{Promised};

    ghost Value = { Promised };

    ghost view = { λ s. record { txns = s.txns.keys; room = spare s.txns } };
}

impl Promises {
    /// None is prepared.
    pub(crate) fn new(alloc: Global) -> Promises
        ensures { result.txns ≡ [] }
    {
        Promises {
            txns: IndexSet::new(alloc),
        }
    }

    /// Whether the transaction is prepared.
    pub(crate) fn has(&self, txn: TxnId) -> bool
        ensures { result ≡ is_promised self.now.txns txn }
    {
        self.txns.contains(&txn)
    }

    /// Makes room for so many more.
    pub(crate) fn reserve(&mut self, more: usize) -> Result<(), NoMemory>
        ensures same { self.new.txns ≡ self.old.txns }
        ensures room { OnOk result (more ≤ self.new.room) }
        ensures kept { self.old.room ≤ self.new.room }
    {
        self.txns.reserve(more)?;
        Ok(())
    }

    /// Takes note that the transaction is prepared.
    pub(crate) fn add(&mut self, txn: TxnId)
        requires { 0 < self.old.room }
        ensures room { self.old.room ≤ self.new.room + 1 }
        ensures added { (other : TxnId) → is_promised self.new.txns other ≡ (is_same_txn other txn || is_promised self.old.txns other) }
    {
        let _ = self.txns.insert(txn);
    }
}
