// The text of a run, from what its sites took in and what its clients were told.
ghost use Rattle.std.specs.Prelude.{◌≡◌, ◌≤◌, ◌<◌, ◌^◌, ◌++◌, List, All, IfOk, codes, length, map};
ghost use Rattle.pv_history.specs.declared.entry.TheConstants.{MAX_ENTRIES};
ghost use Rattle.pv_law_histories.specs.Fitting.{CanAllBeDone, FitTogether};
ghost use Rattle.pv_law_histories.specs.Merge.{IsMerge, Moment, events_of_merge};
ghost use Rattle.pv_live.specs.Naming.{AllNameOnlyItems};
ghost use Rattle.pv_live.specs.Told.{AreFew, heard_of};
ghost use Rattle.pv_merge.specs.Moments.{ArePlanned, histories_of};
ghost use Rattle.pv_protocol.specs.LineText.{text_of};
ghost use Rattle.pv_report.specs.NamesOnlyItems.{NamesOnlyItems};
ghost use Rattle.pv_script.specs.LineView.{line_of};
ghost use Rattle.pv_script.specs.ScheduleView.{HasPlan, event_of};
ghost use Rattle.pv_site.specs.SiteState.{setup_of};
ghost use Rattle.pv_transcript.specs.Transcript.{clients_part, schedule_part, transcript, with_reports};

use crate::printing::lines_of_run;
use crate::telling::push_clients;
use pv_base::{Catalog, NoMemory};
use pv_history::Entry;
use pv_law_histories::{histories_have_one_merge, merged_events_are_well_formed};
use pv_merge::{Run, merge};
use pv_script::{Event, Line, LiveScript};
use pv_told::ClientLine;
use pv_transcript::{push_answers, push_clients_heading, push_schedule};
use std::alloc::Global;

/// The text of a run: what its merge is as a schedule, what its clients were told, and what that schedule prints.
pub(crate) fn transcribed(
    alloc: Global,
    script: &LiveScript,
    histories: &[Vec<Entry>],
    told: &[Vec<ClientLine>],
) -> Result<Vec<u8>, NoMemory>
    requires fit { FitTogether (setup_of script.now.catalog) (histories_of histories.now) }
    requires done { CanAllBeDone script.now.catalog (histories_of histories.now) }
    requires plans { All (λ history. ArePlanned script.now.catalog history.items) histories.now }
    requires sizes { All (λ history. length history.items ≤ MAX_ENTRIES) histories.now }
    requires items { AllNameOnlyItems script.now.catalog told.now }
    requires few { AreFew script.now.clients.items told.now }
    ensures { (moments : List Moment) → IsMerge (histories_of histories.now) moments →
        IfOk result (λ text. text.items ≡
        transcript script.now.catalog (setup_of script.now.catalog) (events_of_merge moments) (heard_of script.now.clients.items told.now)) }
{
    histories_have_one_merge();
    merged_events_are_well_formed();
    let events = events_and_reports(alloc, &script.catalog, histories)?;
    let lines = lines_of_run(alloc, &script.catalog, &events)?;
    text_of_parts(alloc, script, &events, told, &lines)
}

// The events of the merge, and then those that report all items and their sum.
fn events_and_reports(
    alloc: Global,
    catalog: &Catalog,
    histories: &[Vec<Entry>],
) -> Result<Vec<Event>, NoMemory>
    requires fit { FitTogether (setup_of catalog.now) (histories_of histories.now) }
    requires plans { All (λ history. ArePlanned catalog.now history.items) histories.now }
    requires sizes { All (λ history. length history.items ≤ MAX_ENTRIES) histories.now }
    ensures events { (moments : List Moment) → IsMerge (histories_of histories.now) moments →
        IfOk result (λ events. map event_of events.items ≡ with_reports (events_of_merge moments)) }
    ensures plans { IfOk result (λ events. All (HasPlan catalog.now) events.items) }
{
    let Run { events, .. } = merge(alloc, histories, catalog)?;
    let mut events = events;
    events.push(Event::Report)?;
    events.push(Event::Total)?;
    Ok(events)
}

// The parts of the text, one after another.
fn text_of_parts(
    alloc: Global,
    script: &LiveScript,
    events: &[Event],
    told: &[Vec<ClientLine>],
    lines: &[Line],
) -> Result<Vec<u8>, NoMemory>
    requires items { AllNameOnlyItems script.now.catalog told.now }
    requires few { AreFew script.now.clients.items told.now }
    requires lines { All (NamesOnlyItems script.now.catalog) (map line_of lines.now) }
    ensures { IfOk result (λ text. text.items ≡
        schedule_part script.now.catalog (map event_of events.now)
        ++ (clients_part script.now.catalog (heard_of script.now.clients.items told.now) ++ (codes "answers\n" ++ text_of script.now.catalog (map line_of lines.now)))) }
{
    let mut text = Vec::new(alloc);
    push_schedule(&mut text, &script.catalog, events)?;
    push_clients_heading(&mut text)?;
    push_clients(&mut text, &script.clients, told, &script.catalog)?;
    push_answers(&mut text, lines, &script.catalog)?;
    Ok(text)
}
