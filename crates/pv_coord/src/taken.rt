// What a participant granted.
use pv_base::{GrantId, SiteId};
use pv_tree::Read;
use std::marker::Model;

/// What a participant granted to a transaction.
#[derive(Debug, Drop)]
pub(crate) struct Taken {
    /// The participant.
    pub(crate) site: SiteId,
    /// Its grant.
    pub(crate) grant: GrantId,
    /// The values of the items that it granted, ascending by item.
    pub(crate) values: Vec<Read>,
}

impl Model for Taken {
    ghost use Rattle.pv_protocol.specs.State as state;

    ghost Value = { state.Taken };

    ghost view = { λ taken. record { site = taken.site.0; grant = taken.grant; values = taken.values.items } };
}
