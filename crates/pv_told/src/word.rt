// What is to be heard of a request.
ghost use Rattle.std.specs.Prelude.{◌≡◌, IfOk};
ghost use Rattle.pv_script.specs.LineView as view;
ghost use Rattle.pv_told.specs.Words.{printed};

use pv_base::{NoMemory, SiteId};
use pv_history::line_of;
use pv_script::Line;
use pv_site::Note;
use std::alloc::Global;

/// What a history says of a request.
#[derive(Clone, Copy)]
pub(crate) enum Word<'a> {
    /// The site was down.
    Down,
    /// A step has reported this of the request, or of the transaction that it began.
    Note(&'a Note),
}

// The line that it prints at this site.
pub(crate) fn print(alloc: Global, site: SiteId, word: Word<'_>) -> Result<Line, NoMemory>
    ensures { IfOk result (λ line. view.line_of line ≡ printed site.0 word.entry) }
{
    match word {
        Word::Down => Ok(Line::Down(site)),
        Word::Note(note) => line_of(alloc, site, note),
    }
}
