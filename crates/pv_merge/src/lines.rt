// The lines of a moment.
ghost use Rattle.std.specs.Prelude.{◌≡◌, ◌++◌, OnOk, map};
ghost use Rattle.pv_law_histories.specs.Merge.{lines_at};
ghost use Rattle.pv_protocol.specs.Lines.{lines_of};
ghost use Rattle.pv_script.specs.LineView as line;
ghost use Rattle.pv_site.specs.Values.{note_of};
ghost use Rattle.pv_merge.specs.Moments.{moment_of};

use crate::moment::Moment;
use pv_base::{NoMemory, SiteId};
use pv_history::{Seen, line_of};
use pv_script::Line;
use pv_site::Note;
use std::alloc::Global;

/// Adds the lines of a moment.
pub(crate) fn push_lines(
    alloc: Global,
    lines: &mut Vec<Line>,
    moment: &Moment<'_>,
) -> Result<(), NoMemory>
    ensures { OnOk result (map line.line_of lines.new.items ≡ map line.line_of lines.old.items ++ lines_at (moment_of moment.now)) }
{
    match &moment.entry.seen {
        Seen::Done(notes) => push_notes(alloc, lines, moment.site, notes),
        Seen::Fault => {
            lines.push(Line::Fault(moment.site))?;
            Ok(())
        }
        Seen::Down => {
            lines.push(Line::Down(moment.site))?;
            Ok(())
        }
    }
}

// Adds what the notes of a step of this site print.
fn push_notes(
    alloc: Global,
    lines: &mut Vec<Line>,
    site: SiteId,
    notes: &[Note],
) -> Result<(), NoMemory>
    ensures { OnOk result (map line.line_of lines.new.items ≡ map line.line_of lines.old.items ++ lines_of site.0 (map note_of notes.now)) }
{
    for note in notes {
        let printed = line_of(alloc, site, note)?;
        lines.push(printed)?;
    }
    Ok(())
}
