// What a transaction wants of an item.
use crate::ItemId;
use std::marker::Model;

/// An item that a transaction uses.
#[derive(Clone, Copy, Debug, PartialEq, Eq)]
pub struct Want {
    /// The item.
    pub item: ItemId,
    /// Whether it may change the item. Then no other transaction is to use it meanwhile.
    pub exclusive: bool,
}

impl Model for Want {
    ghost use Rattle.pv_base.specs.Want as model;

    ghost Value = { model.Want };

    ghost view = { λ want. record { item = want.item.0; exclusive = want.exclusive } };

    ghost inverse = { λ want. record { item = record { 0 = want.item }; exclusive = want.exclusive } };
}
