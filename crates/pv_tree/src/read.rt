// An item and its value.
use crate::Poly;
use pv_base::ItemId;
use std::marker::Model;

/// An item and its value, as a transaction reads or writes it.
#[derive(Debug, Drop)]
pub struct Read {
    /// The item.
    pub item: ItemId,
    /// Its value.
    pub value: Poly<i64>,
}

impl Model for Read {
    ghost use Rattle.pv_model.specs.Alternatives as model;

    ghost Value = { model.Read };

    ghost view = { λ read. record { item = read.item.0; cases = read.value } };
}
