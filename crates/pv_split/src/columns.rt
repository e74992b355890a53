// What is read, at each alternative.
ghost use Rattle.std.specs.Prelude.{◌≡◌, ◌<◌, ◌≤◌, map, length, All, IfOk};
ghost use Rattle.pv_base.specs.Assignment.{AreAscending};
ghost use Rattle.pv_base.specs.declared.limits.TheConstants.{READ_NAMES};
ghost use Rattle.pv_split.specs.Columns.{columns_of, row_at};

use pv_ast::Row;
use pv_base::{ItemId, NoMemory, TxnId};
use pv_tree::Read;
use std::alloc::Global;
use std::marker::Model;

/// An item and its value at each assignment of some transactions, in the order of [`Poly::table`](pv_tree::Poly::table).
#[derive(Drop)]
pub(crate) struct Column {
    item: ItemId,
    values: Vec<i64>,
}

impl Model for Column {
    ghost use Rattle.pv_split.specs.Columns as model;

    ghost Value = { model.Column };

    ghost view = { λ column. record { item = column.item.0; values = column.values.items } };
}

/// What is read at each assignment of the transactions. Takes time in proportion to the reads, times the assignments, and to the literals.
pub(crate) fn columns_of(
    alloc: Global,
    reads: &[Read],
    txns: &[TxnId],
) -> Result<Vec<Column>, NoMemory>
    requires ascending { AreAscending txns.now }
    requires few { length txns.now ≤ READ_NAMES }
    ensures { IfOk result (λ columns. columns.items ≡ columns_of reads.now txns.now) }
{
    let mut columns = Vec::new(alloc);
    for read in reads {
        let values = read.value.table(alloc, txns)?;
        columns.push(Column {
            item: read.item,
            values,
        })?;
    }
    Ok(columns)
}

/// What is read at the assignment at this place, in the memory of rows that are dropped.
pub(crate) fn rows_in(
    memory: Vec<Row>,
    columns: &[Column],
    place: usize,
) -> Result<Vec<Row>, NoMemory>
    requires { All (λ column. place < length column.values) columns.now }
    ensures { IfOk result (λ rows. rows.items ≡ map (row_at place) columns.now) }
{
    let mut rows = memory;
    rows.clear();
    for column in columns {
        rows.push(Row {
            item: column.item,
            value: column.values[place],
        })?;
    }
    Ok(rows)
}
