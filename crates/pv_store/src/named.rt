// Values beside the transactions that they name.
ghost use Rattle.std.specs.Prelude.{◌≡◌, IfOk};
ghost use Rattle.pv_base.specs.Polyvalue.{AreNames};

use pv_base::{ItemId, NoMemory, TxnId};
use pv_cases::is_sure;
use pv_tree::Poly;
use std::alloc::Global;
use std::marker::Model;

/// A value, and the transactions that it names, so that they are found once, and without memory when the value is replaced.
#[derive(Debug, Drop)]
pub(crate) struct Named {
    value: Poly<i64>,
    txns: Vec<TxnId>,
}

impl Model for Named {
    ghost use Rattle.std.specs.Prelude.{List, ℤ};
    ghost use Rattle.pv_base.specs.Polyvalue as model;

    ghost Value = { List (model.Case ℤ) };

    ghost view = { λ named. named.value };

    ghost invariant = { λ named. model.AreNames named.value named.txns.items };
}

impl Named {
    /// The value, with its transactions. One that is sure has none, and takes no memory.
    pub(crate) fn of(alloc: Global, value: Poly<i64>) -> Result<Named, NoMemory>
        ensures { IfOk result (λ named. named ≡ value) }
    {
        if is_sure(value.cases()) {
            return Ok(Named {
                value,
                txns: Vec::new(alloc),
            });
        }
        let txns = value.names(alloc)?;
        Ok(Named { value, txns })
    }

    /// The value.
    pub(crate) fn value(&self) -> &Poly<i64>
        ensures { result.now ≡ self.now }
    {
        &self.value
    }

    /// The transactions that it names, ascending.
    pub(crate) fn txns(&self) -> &[TxnId]
        ensures { AreNames self.now result.now }
    {
        &self.txns
    }

    /// An equal value, in memory of its own.
    pub(crate) fn copy(&self, alloc: Global) -> Result<Named, NoMemory>
        ensures { IfOk result (λ copy. copy ≡ self.now) }
    {
        Ok(Named {
            value: self.value.copy(alloc)?,
            txns: Vec::from_slice(alloc, &self.txns)?,
        })
    }
}

/// A new value of an item.
#[derive(Debug, Drop)]
pub(crate) struct NewValue {
    /// The item.
    pub(crate) item: ItemId,
    /// Its value.
    pub(crate) value: Named,
}

impl Model for NewValue {
    ghost use Rattle.pv_model.specs.Alternatives as model;

    ghost Value = { model.Read };

    ghost view = { λ new. record { item = new.item.0; cases = new.value } };
}
