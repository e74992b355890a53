// The transactions that reached their lock points.
ghost use Rattle.std.specs.Prelude.{◌≡◌, ◌++◌, ℕ, map, IfOk, OnOk};
ghost use Rattle.pv_base.specs.Catalog.{Declared};
ghost use Rattle.pv_protocol.specs.State as state;
ghost use Rattle.pv_world.specs.Places.{taken_at, votes_from};
ghost use Rattle.pv_world.specs.Stands.{StandsForSite, grant_of, placed_of};

use crate::cell::Cell;
use pv_base::{GrantId, NoMemory, SiteId, TxnId};
use std::alloc::Global;

/// The grant that a transaction took at a participant.
#[derive(Clone, Copy, Debug)]
pub(crate) struct TakenGrant {
    /// The participant.
    pub(crate) site: SiteId,
    /// The grant.
    pub(crate) grant: GrantId,
}

/// A transaction at its lock point.
#[derive(Debug, Drop)]
pub(crate) struct Placed {
    /// The transaction.
    pub(crate) txn: TxnId,
    /// The grants that it took, one of each participant, by their sites.
    pub(crate) grants: Vec<TakenGrant>,
}

// The transaction that is at its lock point, with the grants that its site took from so many sites.
pub(crate) fn at_lock_point(
    alloc: Global,
    home: &Cell,
    txn: TxnId,
    sites: u8,
) -> Result<Placed, NoMemory>
    ensures { (catalog : Declared) (n : ℕ) (is : state.Site) → StandsForSite catalog n home.now is →
        IfOk result (λ placed. placed_of placed ≡ (txn, votes_from is.running txn 0 sites)) }
{
    let mut grants = Vec::new(alloc);
    for site in 0..sites {
        push_taken(&mut grants, home, txn, SiteId(site))?;
    }
    Ok(Placed { txn, grants })
}

// Appends the grant that was taken from the site, if one was.
fn push_taken(
    grants: &mut Vec<TakenGrant>,
    home: &Cell,
    txn: TxnId,
    site: SiteId,
) -> Result<(), NoMemory>
    ensures { (catalog : Declared) (n : ℕ) (is : state.Site) → StandsForSite catalog n home.now is →
        OnOk result (map grant_of grants.new.items ≡ map grant_of grants.old.items ++ taken_at is.running txn site.0) }
{
    if let Some(grant) = home.votes_on(txn, site) {
        grants.push(TakenGrant { site, grant })?;
    }
    Ok(())
}
