// The report that a part of a trace is.
ghost use Rattle.std.specs.Prelude.{◌≡◌, [], ◌∷◌, List, map, IfSome, MatchOption};
ghost use Rattle.pv_audit.specs.Reports.{report_in};
ghost use Rattle.pv_audit.specs.ToldView.{report_of};
ghost use Rattle.pv_audit.specs.Views.{part_of};
ghost use Rattle.pv_model.specs.Serial.{Ordered};
ghost use Rattle.pv_protocol.specs.Lines as model;
ghost use Rattle.pv_script.specs.LineView.{line_of};

use crate::report::{Head, head_of};
use crate::trace::TracePart;
use pv_script::Event;

/// The report that a part of a trace is, if it is one.
pub fn told_by(part: &TracePart) -> Option<Head>
    ensures report { (requests : List Ordered) → MatchOption result
        (report_in requests (part_of part.now).event (part_of part.now).lines ≡ [])
        (λ head. report_in requests (part_of part.now).event (part_of part.now).lines ≡ report_of requests head ∷ []) }
    ensures lines { IfSome result (λ head. (part_of part.now).lines
        ≡ model.Line.order head.ordered.now ∷ (model.Line.committed head.committed.now ∷ (model.Line.open_ones head.open_ones.now ∷ map line_of head.items.now))) }
{
    match &part.event {
        Event::Report => head_of(&part.lines),
        _ => None,
    }
}
