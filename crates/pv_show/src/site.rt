// What the disk of one site holds.
ghost use Rattle.std.specs.Prelude.{◌≡◌, ◌<◌, ◌++◌, List, ℕ, OnOk};
ghost use Rattle.pv_format.specs.Contents.{greatest_epoch};
ghost use Rattle.pv_replay.specs.Values.{contents_of, records_of};
ghost use Rattle.pv_show.specs.Bays.{IsAtRest, OnlyReadsDisks, RisesAtBayFault};
ghost use Rattle.pv_show.specs.LookText.{IsToldOfLook};
ghost use Rattle.pv_show.specs.Showing.{ShowsSite};
ghost use Rattle.pv_show.specs.SiteText.{IsTold, log, records_text};

use crate::ShowError;
use crate::items::push_items;
use crate::look::look;
use crate::pieces::{push_head, push_refusal, push_word};
use pv_base::{Catalog, NoMemory, SiteId};
use pv_disk::{Bay, BayError, LookError};
use pv_replay::{Past, ReplayError, replay};
use pv_store::{Store, StoreError};
use std::alloc::Global;

/// Puts what the disk of a site holds after what the buffer holds.
pub(crate) fn show_site<B: Bay>(
    alloc: Global,
    site: SiteId,
    catalog: &Catalog,
    bay: &mut B,
    text: &mut Vec<u8>,
) -> Result<(), ShowError>
    requires rest { IsAtRest B.model bay.old }
    ensures text { OnOk result ((part : List ℕ) × (text.new.items ≡ text.old.items ++ part)
        × ShowsSite B.model B.D.model catalog.now bay.old bay.new site.0 part) }
    ensures faults { RisesAtBayFault B.model bay.old bay.new result }
    ensures reads { (sites : ℕ) → site.0 < sites → OnlyReadsDisks B.model B.D.model sites bay.old bay.new }
    ensures rest { IsAtRest B.model bay.new }
{
    let mut disk = match bay.disk(site) {
        Ok(disk) => disk,
        Err(BayError::Failed) => return Err(ShowError::BayFault),
        Err(BayError::NoMemory) => return Err(ShowError::NoMemory),
    };
    let looked = look(alloc, &mut disk);
    // Also a disk that can't be shown goes back.
    bay.back(site, disk);
    push_look(alloc, site, catalog, looked, text)?;
    Ok(())
}

// What a look at the disk of a site came to.
fn push_look(
    alloc: Global,
    site: SiteId,
    catalog: &Catalog,
    looked: Result<Vec<Vec<u8>>, LookError>,
    text: &mut Vec<u8>,
) -> Result<(), NoMemory>
    ensures { OnOk result ((part : List ℕ) × (text.new.items ≡ text.old.items ++ part) × IsToldOfLook catalog.now site.0 looked part) }
{
    match looked {
        Ok(contents) => push_contents(alloc, site, catalog, &contents, text),
        Err(LookError::NotOurs(place)) => push_refusal(text, site, b"not-ours", place),
        Err(LookError::Failed) => push_word(text, site, b"fault"),
        Err(LookError::NoMemory) => Err(NoMemory),
    }
}

// What the contents of a site's log tell.
fn push_contents(
    alloc: Global,
    site: SiteId,
    catalog: &Catalog,
    contents: &[Vec<u8>],
    text: &mut Vec<u8>,
) -> Result<(), NoMemory>
    ensures { OnOk result ((part : List ℕ) × (text.new.items ≡ text.old.items ++ part)
        × IsTold catalog.now site.0 (log (contents_of contents.now)) part) }
{
    match replay(alloc, contents) {
        Ok(past) => push_past(alloc, site, catalog, &past, text),
        Err(ReplayError::BadRecord(index)) => push_refusal(text, site, b"bad-record", index),
        Err(ReplayError::NoMemory) => Err(NoMemory),
    }
}

// What the records of a site's log tell.
fn push_past(
    alloc: Global,
    site: SiteId,
    catalog: &Catalog,
    past: &Past,
    text: &mut Vec<u8>,
) -> Result<(), NoMemory>
    requires { past.now.epoch ≡ greatest_epoch (records_of past.now.records.items) }
    ensures { OnOk result (text.new.items ≡ text.old.items ++ records_text catalog.now site.0 (records_of past.now.records.items)) }
{
    let mut store = Store::new(alloc, catalog, site)?;
    match store.load(past) {
        Ok(()) => {
            push_head(text, site, past.epoch, past.records.len())?;
            push_items(alloc, catalog, site, &store, text)
        }
        Err(StoreError::TooManyOutcomes(names)) => {
            push_refusal(text, site, b"too-many", u64::from(names))
        }
        Err(StoreError::NoMemory) => Err(NoMemory),
    }
}
