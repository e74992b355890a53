// What was printed below an event.
ghost use Rattle.std.specs.Prelude.{◌≡◌, ◌≤◌, ◌∷◌, ◌++◌, [], ℕ, List, length, map, IfOk, OnOk};
ghost use Rattle.std.specs.Bool.{MatchBool};
ghost use Rattle.pv_audit.specs.Printed.{AreNamed};
ghost use Rattle.pv_audit.specs.Reading.{AreRead, ComeNext, texts_of};
ghost use Rattle.pv_audit.specs.Traces.{IsWhole};
ghost use Rattle.pv_base.specs.Catalog.{Declared};
ghost use Rattle.pv_model.specs.Events.{report};
ghost use Rattle.pv_model.specs.Text.{TextLine};
ghost use Rattle.pv_script.specs.LineView.{line_of};
ghost use Rattle.pv_script.specs.ScheduleView.{event_of};
ghost use Rattle.pv_script.specs.declared.lines.TheConstants.{MAX_SCHEDULE};

use crate::entries::{Entries, NumberedLine};
use crate::printed::read_line;
use crate::report::is_report;
use pv_base::{Catalog, NoMemory};
use pv_script::{Event, Line};
use std::alloc::Global;

/// What stands below an event.
#[derive(Debug, Drop)]
pub struct Below {
    /// The lines before the first that isn't a printed form.
    pub lines: Vec<Line>,
    /// The number of that one.
    pub broken: Option<u32>,
    /// Whether other lines stand behind it.
    pub more: bool,
}

/// The printed lines that come next.
pub fn read_below(
    alloc: Global,
    catalog: &Catalog,
    entries: &mut Entries,
) -> Result<Below, NoMemory>
    requires named { AreNamed catalog.now }
    ensures below { IfOk result (λ below. (lines : List (ℕ × TextLine)) × ComeNext lines entries.old.numbered entries.new.numbered
        × AreRead catalog.now lines (map line_of below.lines.items) below.broken below.more) }
    ensures after_last { entries.new.after_last ≡ entries.old.after_last }
{
    let mut below = Below {
        lines: Vec::new(alloc),
        broken: None,
        more: false,
    };
    while let Some(line) = entries.next_printed() {
        below.take(alloc, catalog, line)?;
    }
    Ok(below)
}

impl Below {
    // One more line.
    fn take(&mut self, alloc: Global, catalog: &Catalog, line: NumberedLine) -> Result<(), NoMemory>
        requires named { AreNamed catalog.now }
        requires short { length line.text.now ≤ MAX_SCHEDULE }
        ensures { (lines : List (ℕ × TextLine)) → AreRead catalog.now lines (map line_of self.old.lines.items) self.old.broken self.old.more →
            OnOk result (AreRead catalog.now (lines ++ (line.entry.number, line.entry.text.now) ∷ []) (map line_of self.new.lines.items) self.new.broken self.new.more) }
    {
        if self.broken.is_some() {
            self.more = true;
            return Ok(());
        }
        match read_line(alloc, line.text, catalog)? {
            Some(read) => self.lines.push(read)?,
            None => self.broken = Some(line.number),
        }
        Ok(())
    }

    // Whether there is exactly one line, a printed form or not.
    fn is_one(&self) -> bool
        ensures { (catalog : Declared) (lines : List (ℕ × TextLine)) → AreRead catalog lines (map line_of self.now.lines.items) self.now.broken self.now.more →
            MatchBool result (length (texts_of lines) ≡ 1) (length (texts_of lines) ≡ 1 → ⊥) }
    {
        if self.broken.is_none() {
            return self.lines.len() == 1;
        }
        if self.more {
            return false;
        }
        self.lines.is_empty()
    }

    // Whether the lines are those of a report.
    fn is_report(&self, catalog: &Catalog) -> bool
        requires named { AreNamed catalog.now }
        ensures { (lines : List (ℕ × TextLine)) → AreRead catalog.now lines (map line_of self.now.lines.items) self.now.broken self.now.more →
            MatchBool result (IsWhole catalog.now report (texts_of lines)) (IsWhole catalog.now report (texts_of lines) → ⊥) }
    {
        if self.broken.is_some() {
            return false;
        }
        is_report(&self.lines, catalog)
    }
}

/// Whether the lines are all that the event has to print: a request one line, and a report its own.
pub fn is_whole(event: &Event, catalog: &Catalog, below: &Below) -> bool
    requires named { AreNamed catalog.now }
    ensures { (lines : List (ℕ × TextLine)) → AreRead catalog.now lines (map line_of below.now.lines.items) below.now.broken below.now.more →
        MatchBool result (IsWhole catalog.now (event_of event.now) (texts_of lines)) (IsWhole catalog.now (event_of event.now) (texts_of lines) → ⊥) }
{
    match event {
        Event::Submit { .. } => below.is_one(),
        Event::Report => below.is_report(catalog),
        _ => true,
    }
}
