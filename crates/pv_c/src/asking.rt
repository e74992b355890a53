// What C asks of a site.
ghost use Rattle.std.specs.Prelude.{◌≡◌, None, IfSome, slice_get};
ghost use Rattle.pv_base.specs.declared.txn.TxnId.{TxnId};
ghost use Rattle.pv_embed.specs.Outcomes.{TellsOutcome};
ghost use Rattle.pv_handle.specs.Asked.{GivesItem, Informs};
ghost use Rattle.pv_handle.specs.ByteState.{OnSite};
ghost use Rattle.pv_handle.specs.Slot.{Asks, Calls};
ghost use Rattle.pv_handle.specs.Standing.{StandsReady};
ghost use Rattle.pv_c.specs.Answer.{GivenAs};
ghost use Rattle.pv_c.specs.Asked.{InformedAs, ToldAs, info_of, outcome_number, told_number, untold_number};
ghost use Rattle.pv_c.specs.Status.{status_of, status_of_asked};

use crate::numbers::numbers_of_asked;
use crate::status::{CLOSED, DONE, IN_USE, NO_MEMORY, NOT_HERE, NOTHING, UNWRITTEN};
use pv_base::{SiteId, TxnId};
use pv_embed::{Outcome, OutcomeFault};
use pv_handle::{Refused, SiteInfo, SiteSlot};
use std::alloc::Global;

/// The name of an item by its number, and the site that it is at.
#[unsafe(no_mangle)]
pub extern "C" fn polydb_site_item(
    alloc: Global,
    site: &mut SiteSlot,
    number: u64,
    out: &mut [u8],
    written: &mut usize,
    at: &mut u64,
) -> u32
    ensures given { GivenAs (record { status = result; count = written.new; to = at.new })
        (Asks (λ old new given. (new ≡ old) × GivesItem (slice_get old.hosted.site.catalog.items number) out.old out.new given) site.old.handle.site site.new.handle.site) }
    ensures unchanged { site.old.handle.site ≡ None → out.new ≡ out.old }
{
    let answer = site.item(alloc, number, out);
    let numbers = numbers_of_asked(answer);
    *written = numbers.count;
    *at = numbers.to;
    numbers.status
}

/// How long the site's journal is, its epoch, and how many records the journal has.
#[unsafe(no_mangle)]
pub extern "C" fn polydb_site_info(alloc: Global, site: &mut SiteSlot, info: &mut SiteInfo) -> u32
    ensures { InformedAs result info.new (Asks (λ old new info. (new ≡ old) × Informs old.hosted info) site.old.handle.site site.new.handle.site) }
{
    let answer = site.info(alloc);
    *info = info_of(answer);
    status_of_asked(answer)
}

/// What became of a transaction of the site.
#[unsafe(no_mangle)]
pub extern "C" fn polydb_site_outcome(
    alloc: Global,
    site: &mut SiteSlot,
    coordinator: u8,
    epoch: u32,
    number: u32,
    outcome: &mut u32,
) -> u32
    ensures tells { let txn : TxnId = record { site = record { 0 = coordinator }; epoch = epoch; number = number } in
        ToldAs result outcome.new (Calls (OnSite (λ old new. TellsOutcome old new txn)) site.old.handle.site site.new.handle.site) }
    ensures stands { IfSome site.new.handle.site StandsReady }
{
    let txn = TxnId {
        site: SiteId(coordinator),
        epoch,
        number,
    };
    let answer = site.outcome(alloc, txn);
    *outcome = told_number(answer);
    status_of_told(answer)
}

// What is told of a site, and zeroes of none.
fn info_of(answer: Option<SiteInfo>) -> SiteInfo
    ensures { result ≡ info_of answer }
{
    match answer {
        Some(info) => info,
        None => SiteInfo {
            stored: 0,
            asked: 0,
            limit: 0,
            epoch: 0,
            records: 0,
        },
    }
}

// The number of a call that only a closed slot refuses.
fn status_of_asked(answer: Option<SiteInfo>) -> u32
    ensures { result ≡ status_of_asked answer }
{
    match answer {
        Some(_) => DONE,
        None => CLOSED,
    }
}

// The number of an answer to the question what became of a transaction.
fn status_of_told(answer: Result<Outcome, Refused<OutcomeFault>>) -> u32
    ensures { result ≡ status_of untold_number answer }
{
    match answer {
        Ok(_) => DONE,
        Err(Refused::Closed) => CLOSED,
        Err(Refused::InUse) => IN_USE,
        Err(Refused::Engine(fault)) => untold_number(fault),
    }
}

// The number of what is told, and 0 where nothing is.
fn told_number(answer: Result<Outcome, Refused<OutcomeFault>>) -> u32
    ensures { result ≡ told_number answer }
{
    match answer {
        Ok(outcome) => outcome_number(outcome),
        Err(_) => 0,
    }
}

// What became of a transaction.
fn outcome_number(outcome: Outcome) -> u32
    ensures { result ≡ outcome_number outcome }
{
    match outcome {
        Outcome::Committed => 1,
        Outcome::NotCommitted => 2,
        Outcome::AtWork => 3,
    }
}

// Why it isn't told.
fn untold_number(fault: OutcomeFault) -> u32
    ensures { result ≡ untold_number fault }
{
    match fault {
        OutcomeFault::NotHere => NOT_HERE,
        OutcomeFault::Unwritten => UNWRITTEN,
        OutcomeFault::NotBegun => NOTHING,
        OutcomeFault::NoMemory => NO_MEMORY,
    }
}
