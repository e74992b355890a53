// What a host asks of a site in bytes, which changes nothing.
ghost use Rattle.std.specs.Prelude.{◌≡◌, ◌^◌, ◌-◌, min, slice_get};
ghost use Rattle.pv_embed.specs.Outcomes.{TellsOutcome};
ghost use Rattle.pv_handle.specs.Asked.{GivesItem, Informs};
ghost use Rattle.pv_handle.specs.ByteState.{OnSite};
ghost use Rattle.pv_handle.specs.Standing.{StandsReady};

use crate::bytes::ByteSite;
use crate::given::{Given, give};
use crate::info::SiteInfo;
use pv_base::{ItemId, TxnId};
use pv_embed::{Outcome, OutcomeFault};

impl ByteSite {
    /// The name of the item of this number, and the site that the item is at; or that there are fewer items.
    #[tactic(auto, using(crate::proofs::AskLemmas::item_lemmas))]
    pub fn item(&self, number: u64, out: &mut [u8]) -> Given
        ensures { GivesItem (slice_get self.now.hosted.site.catalog.items number) out.old out.new result }
    {
        let catalog = self.site.catalog();
        if number >= catalog.len() as u64 {
            return Given::Nothing;
        }
        let item = ItemId(number as u32);
        let site = catalog.site_of(item);
        give(catalog.name(item), site.0 as u64, out)
    }

    /// How long its journal is, its epoch, and how many records it has.
    pub fn info(&self) -> SiteInfo
        ensures { Informs self.now.hosted result }
    {
        let stored = self.site.stored();
        let asked = self.site.length();
        let limit = self.site.catalog().journal();
        let epoch = if stored < asked { 0 } else { self.site.epoch() };
        SiteInfo {
            stored,
            asked,
            limit,
            epoch,
            records: in_four_bytes(self.site.records()),
        }
    }

    /// What became of a transaction, as [`HostedSite::outcome`](pv_embed::HostedSite::outcome) tells it.
    pub fn outcome(&mut self, txn: TxnId) -> Result<Outcome, OutcomeFault>
        ensures { OnSite (λ old new. TellsOutcome old new txn) self.old self.new result }
    {
        self.site.outcome(txn)
    }

    /// Shows that the site is up, and its log holds its records, as between any two calls. It does nothing.
    pub fn stands_ready(&self)
        ensures { StandsReady self.now }
    {
        self.site.stands_ready();
    }
}

// The count, or the greatest that has room.
fn in_four_bytes(count: u64) -> u32
    ensures { result ≡ min count (2 ^ 32 - 1) }
{
    count.min(u64::from(u32::MAX)) as u32
}
