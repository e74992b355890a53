// How a trace is read.
ghost use Rattle.std.specs.Prelude.{◌≡◌, ◌≤◌, ◌∷◌, ◌++◌, ◌⊎◌, [], ℕ, List, Some, None, All, length, map, IfOk, IfErr, IfSome, IfNone, OnOk};
ghost use Rattle.std.specs.Bool.{MatchBool};
ghost use Rattle.pv_audit.specs.Printed.{AreNamed};
ghost use Rattle.pv_audit.specs.Reading.{AreRead, ComeNext, IsEntryFault, TakesEntry, texts_of};
ghost use Rattle.pv_audit.specs.Traces as model;
ghost use Rattle.pv_audit.specs.Traces.{AreItemLines, IsItemLine, IsReport, IsTrace, IsWhole};
ghost use Rattle.pv_audit.specs.declared.trace.TracePart.{TracePart};
ghost use Rattle.pv_audit.specs.Views.{IsNoTraceAt, RefusedEntry, part_of, refused_entry, trace_of};
ghost use Rattle.pv_base.specs.Catalog.{Declared, Item};
ghost use Rattle.pv_model.specs.LineCauses.{declared_by, not_a_trace};
ghost use Rattle.pv_model.specs.Text.{TextLine};
ghost use Rattle.pv_script.specs.LineView.{line_of};
ghost use Rattle.pv_script.specs.ReaderView.{IsLimitedReader, before_by};
ghost use Rattle.pv_script.specs.ScheduleView.{HasPlan, event_of};
ghost use Rattle.pv_script.specs.declared.lines.TheConstants.{MAX_SCHEDULE};

use crate::below::{is_whole, read_below};
use crate::entries::{Entries, Entry, NumberedLine};
use crate::trace::{Trace, TraceError, TracePart};
use pv_base::{Catalog, ItemId, NoMemory};
use pv_script::{Event, Line, LineCause, MAX_SCHEDULE, Reader, SignificantLine};
use std::alloc::Global;

/// The trace that a text of at most [`MAX_SCHEDULE`] bytes is.
///
/// The lines behind the prompt, without it, are a schedule; each other line is one that printing gives, and stands below the event before it. A request has one
/// line, and a report its lines in order. The least number of a line with a cause is reported. `NoMemory` may come at any place.
///
/// Takes time in proportion to the text, but for looking up the names of items, and for each printed item to the alternatives of its cases.
pub fn read_trace(alloc: Global, text: &[u8]) -> Result<Trace, TraceError>
    requires { length text.now ≤ MAX_SCHEDULE }

    // What is given is the trace that the text is, and no other trace is.
    ensures given { IfOk result (λ trace. IsTrace text.now (trace_of trace)) }
    ensures gives { (trace : model.Trace) → IsTrace text.now trace → IfOk result (λ read. trace_of read ≡ trace) × IfErr result (λ error. refused_entry error ≡ None) }

    // What is reported is the first line with a cause, and no other line is.
    ensures refused { IfErr result (λ error. IfSome (refused_entry error) (IsNoTraceAt text.now)) }
    ensures refuses { (refused : RefusedEntry) → IsNoTraceAt text.now refused →
        IfOk result (λ _. ⊥) × IfErr result (λ error. IfSome (refused_entry error) (λ reported. reported ≡ refused)) }

    // Each request has the plan of its program.
    ensures plans { IfOk result (λ trace. All (λ part. HasPlan trace.catalog part.event) trace.parts.items) }
{
    let mut entries = Entries::new(text);
    let mut reader = Reader::new();
    let mut parts = Vec::new(alloc);
    while let Some(entry) = entries.next() {
        match entry {
            // Each event takes the printed lines behind it, so this one stands before the first.
            Entry::Printed(line) => return Err(not_a_trace(line.number)),
            Entry::Said(line) => read_said(alloc, &mut reader, line, &mut entries, &mut parts)?,
        }
    }
    let Some(catalog) = reader.into_catalog() else {
        return Err(TraceError::Malformed {
            line: entries.after_last(),
            cause: LineCause::SitesExpected,
        });
    };
    Ok(Trace { catalog, parts })
}

// A line of the schedule, with what was printed below it.
fn read_said(
    alloc: Global,
    reader: &mut Reader,
    line: NumberedLine,
    entries: &mut Entries,
    parts: &mut Vec<TracePart>,
) -> Result<(), TraceError>
    requires limited { IsLimitedReader reader.old }
    requires named { AreNamed (declared_by (before_by reader.old)) }
    ensures takes { OnOk result ((more : List model.TracePart) × (map part_of parts.new.items ≡ map part_of parts.old.items ++ more)
        × TakesEntry (before_by reader.old) line.entry.text.now entries.old.numbered (before_by reader.new) entries.new.numbered more) }
    ensures limited { OnOk result (IsLimitedReader reader.new) }
    ensures plans { OnOk result ((parts.new.items ≡ parts.old.items)
        ⊎ ((part : TracePart) × (parts.new.items ≡ parts.old.items ++ part ∷ []) × HasPlan (declared_by (before_by reader.new)) part.event)) }
    ensures after_last { entries.new.after_last ≡ entries.old.after_last }
    ensures fault { IfErr result (λ error. IfSome (refused_entry error) (λ refused.
        IsEntryFault (before_by reader.old) line.entry.number line.entry.text.now entries.old.numbered refused.number refused.cause)) }
{
    let read = reader.read(
        alloc,
        SignificantLine {
            number: line.number,
            text: line.text,
        },
    );
    let event = match read {
        Ok(Some(event)) => event,
        Ok(None) => return Ok(()),
        Err(error) => return Err(error.into()),
    };
    let Some(catalog) = reader.catalog() else {
        return Ok(());
    };
    let below = read_below(alloc, catalog, entries)?;
    if !is_whole(&event, catalog, &below) {
        return Err(not_a_trace(line.number));
    }
    if let Some(number) = below.broken {
        return Err(not_a_trace(number));
    }
    parts.push(TracePart {
        event,
        lines: below.lines,
    })?;
    Ok(())
}

// The line of this number is no line of a trace.
fn not_a_trace(line: u32) -> TraceError
    ensures { refused_entry result ≡ Some (record { number = line; cause = not_a_trace }) }
{
    TraceError::Malformed {
        line,
        cause: LineCause::NotATrace,
    }
}
