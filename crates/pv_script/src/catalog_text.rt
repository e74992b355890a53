// A text that declares a catalog, read once, and the event that a line is behind it.
ghost use Rattle.std.specs.Prelude.{◌≡◌, ◌≢◌, ◌+◌, ◌≤◌, ◌==◌, [], ◌∷◌, length, IfErr, IfNone, IfOk, IfSome};
ghost use Rattle.std.specs.List.{slice_split};
ghost use Rattle.pv_model.specs.Events as happening;
ghost use Rattle.pv_model.specs.Schedule.{IsSchedule};
ghost use Rattle.pv_script.specs.Behind.{schedule_over, with_line, IsEventBehind, IsNoEventBehind};
ghost use Rattle.pv_script.specs.ScheduleView.{event_of, HasPlan};
ghost use Rattle.pv_script.specs.ScriptErrors.{IsMalformedAt, refused_line};
ghost use Rattle.pv_script.specs.declared.schedule.Event as code;

use crate::lines::{Lines, MAX_SCHEDULE};
use crate::read::{read_lines, read_schedule};
use crate::said::Said;
use crate::same::is_same;
use crate::schedule::{Event, ScriptError};
use pv_base::{Catalog, NoMemory};
use std::alloc::Global;
use std::marker::Model;

/// A text that declares a catalog and has no event. It is read once, and an event that stands behind it is read without reading it again.
#[derive(Debug, Drop)]
pub struct CatalogText {
    /// The text.
    text: Vec<u8>,
    /// What it says.
    said: Said,
    /// How many lines it has, with a line feed behind it.
    lines: u32,
}

impl Model for CatalogText {
    ghost use Rattle.pv_script.specs.Behind.{Declaring};
    ghost use Rattle.pv_script.specs.BehindView.{declaring_of, IsRead};

    ghost Value = { Declaring };

    ghost view = { declaring_of };

    ghost invariant = { IsRead };
}

impl CatalogText {
    /// Reads a text of at most [`MAX_SCHEDULE`] bytes as [`read_schedule`] does. Where it has an event there is none.
    ///
    /// Takes time in proportion to the text, but for looking up the names of items.
    pub fn read(alloc: Global, text: &[u8]) -> Result<Option<CatalogText>, ScriptError>
        requires { length text.now ≤ MAX_SCHEDULE }
        ensures text { IfOk result (λ found. IfSome found (λ read. read.text ≡ text.now)) }
        ensures declares { IfOk result (λ found. IfSome found (λ read. IsSchedule text.now (schedule_over read.catalog []))) }
        ensures events { IfOk result (λ found. IfNone found ((schedule : happening.Schedule) × IsSchedule text.now schedule × (schedule.events ≢ []))) }
        ensures fault { IfErr result (λ error. IfSome (refused_line error) (IsMalformedAt text.now)) }
    {
        let (said, events) = read_lines(alloc, text)?;
        if !events.is_empty() {
            return Ok(None);
        }
        let lines = lines_with_feed(text);
        let text = Vec::from_slice(alloc, text)?;
        Ok(Some(CatalogText { text, said, lines }))
    }

    /// The text.
    pub fn text(&self) -> &[u8]
        ensures { result.now ≡ self.now.text }
    {
        &self.text
    }

    /// The catalog that it declares.
    pub fn catalog(&self) -> &Catalog
        ensures { result.now ≡ self.now.catalog }
    {
        &self.said.catalog
    }

    /// The event that a line is behind this text, with a line feed between them. There is none where both together say no event or several, or declare more than this
    /// text. A fault is that of the first line at fault, which is counted behind the text. Together they have at most [`MAX_SCHEDULE`] bytes.
    ///
    /// Takes time in proportion to the line, but for looking up the names of items. Only a line that declares something, and one that is several, take time in proportion
    /// to the text: it is read again with them.
    pub fn read_event(&self, alloc: Global, line: &[u8]) -> Result<Option<Event>, ScriptError>
        requires { length (with_line self.now.text line.now) ≤ MAX_SCHEDULE }
        ensures event { IfOk result (λ found. IfSome found (λ event. IsEventBehind self.now line.now (event_of event))) }
        ensures plan { IfOk result (λ found. IfSome found (HasPlan self.now.catalog)) }
        ensures none { IfOk result (λ found. IfNone found (IsNoEventBehind self.now line.now)) }
        ensures fault { IfErr result (λ error. IfSome (refused_line error) (IsMalformedAt (with_line self.now.text line.now))) }
    {
        let mut lines = Lines::behind(line, self.lines);
        let Some(first) = lines.next() else {
            return Ok(None);
        };
        if lines.next().is_some() {
            return self.read_again(alloc, line);
        }
        match self.said.event(alloc, first.text) {
            Ok(Some(event)) => Ok(Some(event)),
            Ok(None) => self.read_again(alloc, line),
            Err(fault) => Err(fault.at(first.number)),
        }
    }

    // The same, by reading the text again with the line behind it.
    fn read_again(&self, alloc: Global, line: &[u8]) -> Result<Option<Event>, ScriptError>
        requires { length (with_line self.now.text line.now) ≤ MAX_SCHEDULE }
        ensures event { IfOk result (λ found. IfSome found (λ event. IsEventBehind self.now line.now (event_of event))) }
        ensures plan { IfOk result (λ found. IfSome found (HasPlan self.now.catalog)) }
        ensures none { IfOk result (λ found. IfNone found (IsNoEventBehind self.now line.now)) }
        ensures fault { IfErr result (λ error. IfSome (refused_line error) (IsMalformedAt (with_line self.now.text line.now))) }
    {
        let joined = joined(alloc, &self.text, line)?;
        let schedule = read_schedule(alloc, &joined)?;
        if !is_same(&schedule.catalog, &self.said.catalog) {
            return Ok(None);
        }
        Ok(only(schedule.events))
    }
}

// How many lines a text has with a line feed behind it.
fn lines_with_feed(text: &[u8]) -> u32
    requires { length text.now ≤ MAX_SCHEDULE }
    ensures { result ≡ length (slice_split (λ b. b == 10) text.now) }
{
    text.split(|b| *b == b'\n').count() as u32
}

// The text with the line behind it.
fn joined(alloc: Global, text: &[u8], line: &[u8]) -> Result<Vec<u8>, NoMemory>
    requires { length (with_line text.now line.now) ≤ MAX_SCHEDULE }
    ensures { IfOk result (λ joined. joined.items ≡ with_line text.now line.now) }
{
    let mut joined = Vec::with_capacity(alloc, text.len() + 1 + line.len())?;
    joined.extend_from_slice(text)?;
    joined.push(b'\n')?;
    joined.extend_from_slice(line)?;
    Ok(joined)
}

// The event, where there is one and no other.
fn only(events: Vec<Event>) -> Option<Event>
    ensures only { IfSome result (λ event. events.items ≡ event ∷ []) }
    ensures none { IfNone result ((event : code.Event) → events.items ≢ event ∷ []) }
{
    let mut events = events;
    let last = events.pop()?;
    if !events.is_empty() {
        return None;
    }
    Some(last)
}
