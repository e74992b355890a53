// The lines of a report.
ghost use Rattle.std.specs.Prelude.{◌≡◌, ◌∷◌, ◌++◌, [], List, length, map, IfNone, IfSome};
ghost use Rattle.std.specs.Bool.{MatchBool};
ghost use Rattle.pv_audit.specs.Traces.{AreItemLines, IsItemLine, IsReport};
ghost use Rattle.pv_base.specs.Catalog.{Item};
ghost use Rattle.pv_base.specs.declared.txn.TxnId as code;
ghost use Rattle.pv_protocol.specs.Lines as model;
ghost use Rattle.pv_script.specs.LineView.{line_of};

use pv_base::{Catalog, ItemId, TxnId};
use pv_script::Line;

/// What a report's first three lines say, and the lines behind them.
#[derive(Clone, Copy, Debug)]
pub struct Head<'a> {
    /// The transactions in the order of their lock points.
    pub ordered: &'a [TxnId],
    /// Those that are committed.
    pub committed: &'a [TxnId],
    /// Those that are open.
    pub open_ones: &'a [TxnId],
    /// The lines of the items, and the end.
    pub items: &'a [Line],
}

/// The head of a report, where the lines begin with one.
pub fn head_of(lines: &[Line]) -> Option<Head>
    ensures some { IfSome result (λ head. map line_of lines.now
        ≡ model.Line.order head.ordered.now ∷ (model.Line.committed head.committed.now ∷ (model.Line.open_ones head.open_ones.now ∷ map line_of head.items.now))) }
    ensures none { IfNone result ((ordered committed open_ones : List code.TxnId) (items : List model.Line) →
        map line_of lines.now ≡ model.Line.order ordered ∷ (model.Line.committed committed ∷ (model.Line.open_ones open_ones ∷ items)) → ⊥) }
{
    let (first, rest) = lines.split_first()?;
    let (second, rest) = rest.split_first()?;
    let (third, items) = rest.split_first()?;
    let ordered = order_in(first)?;
    let committed = committed_in(second)?;
    let open_ones = open_in(third)?;
    Some(Head {
        ordered,
        committed,
        open_ones,
        items,
    })
}

fn order_in(line: &Line) -> Option<&[TxnId]>
    ensures some { IfSome result (λ txns. line_of line.now ≡ model.Line.order txns.now) }
    ensures none { IfNone result ((txns : List code.TxnId) → line_of line.now ≡ model.Line.order txns → ⊥) }
{
    match line {
        Line::Order(txns) => Some(txns),
        _ => None,
    }
}

fn committed_in(line: &Line) -> Option<&[TxnId]>
    ensures some { IfSome result (λ txns. line_of line.now ≡ model.Line.committed txns.now) }
    ensures none { IfNone result ((txns : List code.TxnId) → line_of line.now ≡ model.Line.committed txns → ⊥) }
{
    match line {
        Line::Committed(txns) => Some(txns),
        _ => None,
    }
}

fn open_in(line: &Line) -> Option<&[TxnId]>
    ensures some { IfSome result (λ txns. line_of line.now ≡ model.Line.open_ones txns.now) }
    ensures none { IfNone result ((txns : List code.TxnId) → line_of line.now ≡ model.Line.open_ones txns → ⊥) }
{
    match line {
        Line::OpenOnes(txns) => Some(txns),
        _ => None,
    }
}

/// Whether the lines are those of a report.
pub fn is_report(lines: &[Line], catalog: &Catalog) -> bool
    ensures { MatchBool result (IsReport catalog.now (map line_of lines.now)) (IsReport catalog.now (map line_of lines.now) → ⊥) }
{
    let Some(head) = head_of(lines) else {
        return false;
    };
    let Some((last, items)) = head.items.split_last() else {
        return false;
    };
    if !is_end(last) {
        return false;
    }
    are_item_lines(items, catalog.len())
}

fn is_end(line: &Line) -> bool
    ensures { MatchBool result (line_of line.now ≡ model.Line.end) (line_of line.now ≡ model.Line.end → ⊥) }
{
    match line {
        Line::End => true,
        _ => false,
    }
}

// Whether there is one line for each of so many items, in order.
fn are_item_lines(lines: &[Line], items: u32) -> bool
    ensures { (declared : List Item) → length declared ≡ items →
        MatchBool result (AreItemLines 0 declared (map line_of lines.now)) (AreItemLines 0 declared (map line_of lines.now) → ⊥) }
{
    if lines.len() != items as usize {
        return false;
    }
    let mut next = 0;
    for line in lines {
        if !is_of_item(line, ItemId(next)) {
            return false;
        }
        next += 1;
    }
    true
}

// Whether the line is the one of this item.
fn is_of_item(line: &Line, item: ItemId) -> bool
    ensures { MatchBool result (IsItemLine item.0 (line_of line.now)) (IsItemLine item.0 (line_of line.now) → ⊥) }
{
    match line {
        Line::Item { item: other, .. } => other.0 == item.0,
        Line::ItemLocked { item: other, .. } => other.0 == item.0,
        Line::ItemDown(other) => other.0 == item.0,
        _ => false,
    }
}
