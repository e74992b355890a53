// Rows of items and their values.
ghost use Rattle.std.specs.Prelude.{◌≡◌};
ghost use Rattle.pv_model.specs.Meaning.{value_in, with_row};
ghost use Rattle.pv_model.specs.Items.{lacks, has_once};

use pv_base::ItemId;
use std::marker::Model;

/// An item and its value.
#[derive(Clone, Copy, Debug, PartialEq, Eq)]
pub struct Row {
    /// The item.
    pub item: ItemId,
    /// Its value.
    pub value: i64,
}

impl Model for Row {
    ghost use Rattle.pv_model.specs.Meaning as model;

    ghost Value = { model.Row };

    ghost view = { λ row. record { item = row.item.0; value = row.value } };

    ghost inverse = { λ row. record { item = record { 0 = row.item }; value = row.value } };
}

/// An item's value, which is 0 where it has no row. Takes time in proportion to the rows.
pub fn value_in(rows: &[Row], item: ItemId) -> i64
    ensures { result ≡ value_in rows.now item.0 }
{
    let mut left = rows;
    while let [row, rest @ ..] = left {
        if row.item == item {
            return row.value;
        }
        left = rest;
    }
    0
}

/// Gives an item a value. Without a row of the item nothing changes. Takes time in proportion to the rows.
pub fn assign(rows: &mut [Row], item: ItemId, value: i64)
    ensures { rows.new ≡ with_row rows.old item.0 value }
{
    for place in 0..rows.len() {
        let row = rows[place];
        if row.item == item {
            rows[place] = Row {
                item: row.item,
                value,
            };
            return;
        }
    }
}

/// Whether one row has the item.
pub fn has_once(rows: &[Row], item: ItemId) -> bool
    ensures { result ≡ has_once rows.now item.0 }
{
    let mut left = rows;
    while let [row, rest @ ..] = left {
        if row.item == item {
            return lacks(rest, item);
        }
        left = rest;
    }
    false
}

// Whether no row has the item.
fn lacks(rows: &[Row], item: ItemId) -> bool
    ensures { result ≡ lacks rows.now item.0 }
{
    let mut left = rows;
    while let [row, rest @ ..] = left {
        if row.item == item {
            return false;
        }
        left = rest;
    }
    true
}
