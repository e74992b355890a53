// The events and the lines of all histories.
ghost use Rattle.std.specs.Prelude.{◌≡◌, ◌≤◌, ◌<◌, ◌^◌, ℕ, List, All, IfOk, length, map};
ghost use Rattle.pv_law_histories.specs.Course.{course};
ghost use Rattle.pv_law_histories.specs.Fitting.{FitTogether, history_of};
ghost use Rattle.pv_law_histories.specs.Merge as model;
ghost use Rattle.pv_law_histories.specs.Merge.{AreInOrder, IsMerge, events_of_merge, lines_of_merge};
ghost use Rattle.pv_protocol.specs.Run.{printed, run, world_after};
ghost use Rattle.pv_protocol.specs.World.{first_site, opening, site_at};
ghost use Rattle.pv_script.specs.LineView.{line_of};
ghost use Rattle.pv_script.specs.ScheduleView.{HasPlan, event_of};
ghost use Rattle.pv_site.specs.SiteState.{setup_of};
ghost use Rattle.pv_base.specs.Catalog.{Declared};
ghost use Rattle.pv_merge.specs.Moments.{ArePlanned, AreMomentsPlanned, IsSentAmong, histories_of, moment_of};
ghost use Rattle.pv_merge.specs.Numbers.{numbers_from};
ghost use Rattle.pv_history.specs.declared.entry.TheConstants.{MAX_ENTRIES};

use crate::events::push_events;
use crate::lines::push_lines;
use crate::merging::in_order;
use crate::moment::Moment;
use crate::numbers::numbers_of;
use pv_base::{Catalog, NoMemory};
use pv_history::Entry;
use pv_law_histories::{histories_have_one_merge, merged_histories_are_a_run};
use pv_script::{Event, Line};
use std::alloc::Global;

/// What sites did, as one run: the events, and the lines that they print.
#[derive(Debug, Drop)]
pub struct Run {
    /// The events, in order.
    pub events: Vec<Event>,
    /// The lines, in order.
    pub lines: Vec<Line>,
}

/// The histories of all sites, which fit together, as one run: their entries in the order of stamps, and at one stamp in the order of sites, each as the
/// event that it is, and messages numbered in that order. Before an entry of a fault its site's next write is armed to fail. The events are a run of the
/// world that prints these lines, and that leaves each site where its own history leaves it.
///
/// Takes time in proportion to the entries, times the sites and the logarithm of the entries.
pub fn merge(alloc: Global, histories: &[Vec<Entry>], catalog: &Catalog) -> Result<Run, NoMemory>
    requires fit { FitTogether (setup_of catalog.now) (histories_of histories.now) }
    requires plans { All (λ history. ArePlanned catalog.now history.items) histories.now }
    requires sizes { All (λ history. length history.items ≤ MAX_ENTRIES) histories.now }
    ensures events { (moments : List model.Moment) → IsMerge (histories_of histories.now) moments → IfOk result (λ made. map event_of made.events.items ≡ events_of_merge moments) }
    ensures lines { (moments : List model.Moment) → IsMerge (histories_of histories.now) moments → IfOk result (λ made. map line_of made.lines.items ≡ lines_of_merge moments) }
    ensures plans { IfOk result (λ made. All (HasPlan catalog.now) made.events.items) }
    ensures printed { IfOk result (λ made. printed (setup_of catalog.now) (map event_of made.events.items) ≡ map line_of made.lines.items) }
    ensures sites { IfOk result (λ made. (n : ℕ) → n < catalog.now.sites →
        site_at (world_after (opening (setup_of catalog.now)) (run (setup_of catalog.now) (opening (setup_of catalog.now)) (map event_of made.events.items))) n ≡
        course (setup_of catalog.now) n first_site (history_of (histories_of histories.now) n)) }
{
    histories_have_one_merge();
    merged_histories_are_a_run();
    let moments = in_order(alloc, histories, catalog.sites())?;
    let numbers = numbers_of(alloc, &moments)?;
    let (events, lines) = told(alloc, &moments, &numbers)?;
    Ok(Run { events, lines })
}

// The events and the lines of these moments, whose messages are numbered so.
fn told(
    alloc: Global,
    moments: &[Moment<'_>],
    numbers: &[u64],
) -> Result<(Vec<Event>, Vec<Line>), NoMemory>
    requires order { AreInOrder (map moment_of moments.now) }
    requires numbers { numbers.now ≡ numbers_from 0 (map moment_of moments.now) }
    requires small { All (λ number. number ≤ 2 ^ 60) numbers.now }
    requires there { All (λ moment. IsSentAmong (map moment_of moments.now) moment.entry.intake) (map moment_of moments.now) }
    ensures events { IfOk result (λ made. map event_of made.0.items ≡ events_of_merge (map moment_of moments.now)) }
    ensures lines { IfOk result (λ made. map line_of made.1.items ≡ lines_of_merge (map moment_of moments.now)) }
    ensures plans { (catalog : Declared) → AreMomentsPlanned catalog moments.now → IfOk result (λ made. All (HasPlan catalog) made.0.items) }
{
    let mut events = Vec::new(alloc);
    let mut lines = Vec::new(alloc);
    for moment in moments {
        push_events(alloc, &mut events, moments, numbers, moment)?;
        push_lines(alloc, &mut lines, moment)?;
    }
    Ok((events, lines))
}
