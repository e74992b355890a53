// The parts of the text, each put after what a buffer holds.
ghost use Rattle.std.specs.Prelude.{◌≡◌, ◌++◌, All, OnErr, OnOk, codes, map};
ghost use Rattle.pv_protocol.specs.LineText.{text_of};
ghost use Rattle.pv_report.specs.NamesOnlyItems.{NamesOnlyItems};
ghost use Rattle.pv_report.specs.StillHeld.{StillHeld};
ghost use Rattle.pv_script.specs.LineView.{line_of};
ghost use Rattle.pv_script.specs.ScheduleView.{event_of};
ghost use Rattle.pv_transcript.specs.Begins.{Begins};
ghost use Rattle.pv_transcript.specs.ScheduleText.{events_text};
ghost use Rattle.pv_transcript.specs.Transcript.{schedule_part};

use crate::catalog::push_catalog;
use crate::event::push_event;
use crate::pieces::push_bytes;
use pv_base::{Catalog, NoMemory};
use pv_report::push_line;
use pv_script::{Event, Line};

/// The schedule that a run came to: what the catalog declares, and these events.
#[tactic(auto, using(crate::proofs::HeldLemmas::beginnings))]
pub fn push_schedule(
    text: &mut Vec<u8>,
    catalog: &Catalog,
    events: &[Event],
) -> Result<(), NoMemory>
    ensures text { OnOk result (text.new.items ≡ text.old.items ++ schedule_part catalog.now (map event_of events.now)) }
    ensures held { OnErr result (StillHeld text.old.items text.new.items) }
    ensures begun { OnErr result (Begins text.new.items (text.old.items ++ schedule_part catalog.now (map event_of events.now))) }
{
    push_bytes(text, b"schedule\n")?;
    push_catalog(text, catalog)?;
    push_events(text, events)
}

// The lines of events.
fn push_events(text: &mut Vec<u8>, events: &[Event]) -> Result<(), NoMemory>
    ensures text { OnOk result (text.new.items ≡ text.old.items ++ events_text (map event_of events.now)) }
    ensures held { OnErr result (StillHeld text.old.items text.new.items) }
    ensures begun { OnErr result (Begins text.new.items (text.old.items ++ events_text (map event_of events.now))) }
{
    for event in events {
        push_event(text, event)?;
    }
    Ok(())
}

/// What the lines of clients begin with.
pub fn push_clients_heading(text: &mut Vec<u8>) -> Result<(), NoMemory>
    ensures text { OnOk result (text.new.items ≡ text.old.items ++ codes "clients\n") }
    ensures unchanged { OnErr result (text.new.items ≡ text.old.items) }
{
    push_bytes(text, b"clients\n")
}

/// What the schedule prints.
#[tactic(auto, using(crate::proofs::HeldLemmas::beginnings))]
pub fn push_answers(text: &mut Vec<u8>, lines: &[Line], catalog: &Catalog) -> Result<(), NoMemory>
    requires items { All (NamesOnlyItems catalog.now) (map line_of lines.now) }
    ensures text { OnOk result (text.new.items ≡ text.old.items ++ (codes "answers\n" ++ text_of catalog.now (map line_of lines.now))) }
    ensures held { OnErr result (StillHeld text.old.items text.new.items) }
    ensures begun { OnErr result (Begins text.new.items (text.old.items ++ (codes "answers\n" ++ text_of catalog.now (map line_of lines.now)))) }
{
    push_bytes(text, b"answers\n")?;
    push_lines(text, lines, catalog)
}

// Lines, one after another.
fn push_lines(text: &mut Vec<u8>, lines: &[Line], catalog: &Catalog) -> Result<(), NoMemory>
    requires items { All (NamesOnlyItems catalog.now) (map line_of lines.now) }
    ensures text { OnOk result (text.new.items ≡ text.old.items ++ text_of catalog.now (map line_of lines.now)) }
    ensures held { OnErr result (StillHeld text.old.items text.new.items) }
    ensures begun { OnErr result (Begins text.new.items (text.old.items ++ text_of catalog.now (map line_of lines.now))) }
{
    for line in lines {
        push_line(text, line, catalog)?;
    }
    Ok(())
}
