// What a program does: the rows afterwards, and a reply.
use crate::Row;
use pv_base::Reply;
use std::marker::Model;

/// The rows afterwards, in the same order, and the reply.
#[derive(Debug, Drop)]
pub struct Effect {
    /// The rows.
    pub rows: Vec<Row>,
    /// The reply.
    pub reply: Reply,
}

impl Model for Effect {
    ghost use Rattle.pv_model.specs.Meaning as model;

    ghost Value = { model.Effect };

    ghost view = { λ effect. record { rows = effect.rows.items; reply = effect.reply } };
}
