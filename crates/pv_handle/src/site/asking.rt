// What is asked of the site in a slot.
ghost use Rattle.std.specs.Prelude.{◌≡◌, IfNone, IfSome, slice_get};
ghost use Rattle.pv_embed.specs.Outcomes.{TellsOutcome};
ghost use Rattle.pv_handle.specs.Asked.{GivesItem, Informs};
ghost use Rattle.pv_handle.specs.ByteState.{OnSite};
ghost use Rattle.pv_handle.specs.Slot.{Asks, Calls};
ghost use Rattle.pv_handle.specs.Standing.{StandsReady};

use crate::given::Given;
use crate::info::SiteInfo;
use crate::refused::Refused;
use crate::site::SiteSlot;
use pv_base::TxnId;
use pv_embed::{Outcome, OutcomeFault};
use std::alloc::Global;

impl SiteSlot {
    /// The name of the item of this number, and the site that the item is at.
    pub fn item(&mut self, alloc: Global, number: u64, out: &mut [u8]) -> Option<Given>
        ensures given { Asks (λ old new given. (new ≡ old) × GivesItem (slice_get old.hosted.site.catalog.items number) out.old out.new given)
            self.old.handle.site self.new.handle.site result }
        ensures unchanged { IfNone result (out.new ≡ out.old) }
    {
        if !self.live {
            return None;
        }
        let site = self.take_out(alloc);
        let given = site.item(number, out);
        self.put(site);
        Some(given)
    }

    /// How long the site's journal is, its epoch, and how many records the journal has.
    pub fn info(&mut self, alloc: Global) -> Option<SiteInfo>
        ensures { Asks (λ old new info. (new ≡ old) × Informs old.hosted info) self.old.handle.site self.new.handle.site result }
    {
        if !self.live {
            return None;
        }
        let site = self.take_out(alloc);
        let info = site.info();
        self.put(site);
        Some(info)
    }

    /// What became of a transaction of the site.
    pub fn outcome(&mut self, alloc: Global, txn: TxnId) -> Result<Outcome, Refused<OutcomeFault>>
        ensures tells { Calls (OnSite (λ old new. TellsOutcome old new txn)) self.old.handle.site self.new.handle.site result }
        ensures stands { IfSome self.new.handle.site StandsReady }
    {
        if !self.live {
            return Err(Refused::Closed);
        }
        let mut site = self.take_out(alloc);
        let answer = site.outcome(txn);
        site.stands_ready();
        self.put(site);
        match answer {
            Ok(outcome) => Ok(outcome),
            Err(fault) => Err(Refused::Engine(fault)),
        }
    }
}
