// How lines are written.
ghost use Rattle.std.specs.Prelude.{◌≡◌, ◌++◌, OnErr, OnOk};
ghost use Rattle.pv_report.specs.NamesOnlyItems.{NamesOnlyItems};
ghost use Rattle.pv_script.specs.LineView.{line_of};

use pv_base::{Catalog, NoMemory};
use pv_report::{push_json, push_line};
use pv_script::Line;

/// How the lines of a run are written.
#[derive(Clone, Copy, Debug, PartialEq, Eq)]
pub enum Form {
    /// Each as text.
    Text,
    /// Each as a JSON object.
    Json,
    /// Each as text, and before those of each event the line of the schedule that it is.
    Trace,
}

impl Form {
    ghost use Rattle.pv_run.specs.Forms.{line_in};

    /// Puts the line after what the buffer holds. After an error the buffer is as it was.
    pub fn push_line(
        self,
        text: &mut Vec<u8>,
        line: &Line,
        catalog: &Catalog,
    ) -> Result<(), NoMemory>
        requires items { NamesOnlyItems catalog.now (line_of line.now) }
        ensures text { OnOk result (text.new.items ≡ text.old.items ++ line_in self catalog.now (line_of line.now)) }
        ensures unchanged { OnErr result (text.new.items ≡ text.old.items) }
    {
        match self {
            Form::Text => push_line(text, line, catalog),
            Form::Json => push_json(text, line, catalog),
            Form::Trace => push_line(text, line, catalog),
        }
    }
}
