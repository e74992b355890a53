// All entries in the order of their stamps, and at one stamp in the order of sites.
ghost use Rattle.std.specs.Prelude.{◌≡◌, ◌≢◌, ◌<◌, ◌≤◌, ◌+◌, ◌∷◌, [], ◌++◌, ◌⊎◌, false, List, All, IfOk, OnOk, drop, length, map, slice_get, Some};
ghost use Rattle.pv_law_histories.specs.Fitting.{HasRisingStamps, history_of};
ghost use Rattle.pv_law_histories.specs.Merge as model;
ghost use Rattle.pv_law_histories.specs.Merge.{AreInOrder, merge_from, with_history};
ghost use Rattle.pv_history.specs.Entries.{stamps_of};
ghost use Rattle.pv_base.specs.Catalog.{Declared};
ghost use Rattle.pv_merge.specs.Moments.{AllRise, ArePlanned, AreMomentsPlanned, histories_of, moment_of};

use crate::moment::Moment;
use pv_base::{NoMemory, SiteId};
use pv_history::Entry;
use std::alloc::Global;

/// All entries of the histories in order. Takes time in proportion to all entries, times the sites.
pub(crate) fn in_order<'a>(
    alloc: Global,
    histories: &'a [Vec<Entry>],
    sites: u8,
) -> Result<Vec<Moment<'a>>, NoMemory>
    requires count { length histories.now ≡ sites }
    requires rising { AllRise (histories_of histories.now) }
    ensures moments { IfOk result (λ moments. map moment_of moments.items ≡ merge_from 0 (histories_of histories.now)) }
    ensures planned { (catalog : Declared) → All (λ history. ArePlanned catalog history.items) histories.now → IfOk result (λ moments. AreMomentsPlanned catalog moments.items) }
{
    let mut moments = Vec::new(alloc);
    let mut site = sites;
    while site > 0 {
        site -= 1;
        moments = with_history(alloc, SiteId(site), &histories[site as usize], &moments)?;
    }
    Ok(moments)
}

// The entries of a site's history among those of other sites, in order.
fn with_history<'a>(
    alloc: Global,
    site: SiteId,
    history: &'a [Entry],
    others: &[Moment<'a>],
) -> Result<Vec<Moment<'a>>, NoMemory>
    requires rising { HasRisingStamps (stamps_of history.now) }
    requires order { AreInOrder (map moment_of others.now) }
    requires apart { All (λ moment. moment.site ≢ site.0) (map moment_of others.now) }
    ensures moments { IfOk result (λ moments. map moment_of moments.items ≡ with_history site.0 (stamps_of history.now) (map moment_of others.now)) }
    ensures planned { (catalog : Declared) → ArePlanned catalog history.now → AreMomentsPlanned catalog others.now → IfOk result (λ moments. AreMomentsPlanned catalog moments.items) }
{
    let mut merged = Vec::new(alloc);
    let mut next = 0;
    for other in others {
        next = push_before(&mut merged, site, history, next, other)?;
        merged.push(*other)?;
    }
    push_rest(&mut merged, site, history, next)?;
    Ok(merged)
}

// Adds those entries of the history, from this one on, that come before a moment of another site, and answers which one is next.
fn push_before<'a>(
    merged: &mut Vec<Moment<'a>>,
    site: SiteId,
    history: &'a [Entry],
    from: usize,
    other: &Moment<'a>,
) -> Result<usize, NoMemory>
    requires from { from ≤ length history.now }
    requires rising { HasRisingStamps (stamps_of history.now) }
    requires apart { (moment_of other.now).site ≢ site.0 }
    ensures next { IfOk result (λ next. next ≤ length history.now) }
    ensures moments { IfOk result (λ next. (later : List model.Moment) → AreInOrder (moment_of other.now ∷ later) → All (λ moment. moment.site ≢ site.0) later →
        map moment_of merged.new.items ++ (moment_of other.now ∷ with_history site.0 (drop next (stamps_of history.now)) later) ≡
        map moment_of merged.old.items ++ with_history site.0 (drop from (stamps_of history.now)) (moment_of other.now ∷ later)) }
    ensures planned { (catalog : Declared) → ArePlanned catalog history.now → AreMomentsPlanned catalog merged.old.items → OnOk result (AreMomentsPlanned catalog merged.new.items) }
{
    for at in from..history.len() {
        let moment = Moment {
            site,
            entry: &history[at],
        };
        if !moment.is_before(other) {
            return Ok(at);
        }
        merged.push(moment)?;
    }
    Ok(history.len())
}

// Adds the entries of the history from this one on.
fn push_rest<'a>(
    merged: &mut Vec<Moment<'a>>,
    site: SiteId,
    history: &'a [Entry],
    from: usize,
) -> Result<(), NoMemory>
    requires from { from ≤ length history.now }
    requires rising { HasRisingStamps (stamps_of history.now) }
    ensures moments { OnOk result (map moment_of merged.new.items ≡ map moment_of merged.old.items ++ with_history site.0 (drop from (stamps_of history.now)) []) }
    ensures planned { (catalog : Declared) → ArePlanned catalog history.now → AreMomentsPlanned catalog merged.old.items → OnOk result (AreMomentsPlanned catalog merged.new.items) }
{
    for at in from..history.len() {
        let moment = Moment {
            site,
            entry: &history[at],
        };
        merged.push(moment)?;
    }
    Ok(())
}
