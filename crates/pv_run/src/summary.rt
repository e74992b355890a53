// The summary of a run.
ghost use Rattle.std.specs.Prelude.{◌≡◌, ◌++◌, [], All, IfOk, OnOk, None, map};
ghost use Rattle.std.specs.Option.{option_map, option_map_or};
ghost use Rattle.pv_run.specs.Summary.{begins_txn, committed_count, count, counted_line, is_total, latest, or_zero, open_count, refuses_txn, summary_text, total_in};
ghost use Rattle.pv_protocol.specs.LineText.{line_text};
ghost use Rattle.pv_report.specs.NamesOnlyItems.{NamesOnlyItems};
ghost use Rattle.pv_script.specs.LineView.{line_of};

use pv_base::{Catalog, NoMemory, push_number};
use pv_report::push_line;
use pv_script::Line;
use std::alloc::Global;

/// The summary of a run that printed these lines, where `events` says how many events it had. Takes time in proportion to the lines.
#[tactic(auto, unfolding(crate::specs::Summary::summary_text))]
pub fn sum_up(
    alloc: Global,
    events: usize,
    lines: &[Line],
    catalog: &Catalog,
) -> Result<Vec<u8>, NoMemory>
    requires items { All (NamesOnlyItems catalog.now) (map line_of lines.now) }
    ensures { IfOk result (λ text. text.items ≡ summary_text catalog.now events (map line_of lines.now)) }
{
    let mut text = Vec::new(alloc);
    push_counted(&mut text, b"events", events)?;
    push_counted(&mut text, b"transactions", count_txns(lines))?;
    push_counted(&mut text, b"committed", last_committed(lines))?;
    push_counted(&mut text, b"refused", count_refusals(lines))?;
    push_counted(&mut text, b"open", last_open(lines))?;
    push_total(&mut text, lines, catalog)?;
    Ok(text)
}

// A word and a number, on a line of their own.
fn push_counted(text: &mut Vec<u8>, word: &[u8], count: usize) -> Result<(), NoMemory>
    ensures { OnOk result (text.new.items ≡ text.old.items ++ counted_line word.now count) }
{
    text.extend_from_slice(word)?;
    text.extend_from_slice(b" ")?;
    push_number(text, count as u64)?;
    text.extend_from_slice(b"\n")?;
    Ok(())
}

// How many transactions have begun.
fn count_txns(lines: &[Line]) -> usize
    ensures { result ≡ count begins_txn (map line_of lines.now) }
{
    let mut begun = 0;
    for line in lines {
        if begins_txn(line) {
            begun += 1;
        }
    }
    begun
}

fn begins_txn(line: &Line) -> bool
    ensures { result ≡ begins_txn (line_of line.now) }
{
    matches!(line, Line::Txn(_))
}

// How many transactions were refused.
fn count_refusals(lines: &[Line]) -> usize
    ensures { result ≡ count refuses_txn (map line_of lines.now) }
{
    let mut refused = 0;
    for line in lines {
        if refuses_txn(line) {
            refused += 1;
        }
    }
    refused
}

fn refuses_txn(line: &Line) -> bool
    ensures { result ≡ refuses_txn (line_of line.now) }
{
    match line {
        Line::RefuseConflict { .. }
        | Line::RefuseLimit { .. }
        | Line::RefuseUncertain { .. }
        | Line::RefuseExpired { .. }
        | Line::RefuseLost { .. }
        | Line::RefuseFull { .. } => true,
        _ => false,
    }
}

// How many transactions the last report says are committed.
fn last_committed(lines: &[Line]) -> usize
    ensures { result ≡ or_zero (latest committed_count None (map line_of lines.now)) }
{
    let mut committed = 0;
    for line in lines {
        committed = committed_count(line).unwrap_or(committed);
    }
    committed
}

fn committed_count(line: &Line) -> Option<usize>
    ensures { result ≡ committed_count (line_of line.now) }
{
    match line {
        Line::Committed(txns) => Some(txns.len()),
        _ => None,
    }
}

// How many transactions the last report says are open.
fn last_open(lines: &[Line]) -> usize
    ensures { result ≡ or_zero (latest open_count None (map line_of lines.now)) }
{
    let mut open = 0;
    for line in lines {
        open = open_count(line).unwrap_or(open);
    }
    open
}

fn open_count(line: &Line) -> Option<usize>
    ensures { result ≡ open_count (line_of line.now) }
{
    match line {
        Line::OpenOnes(txns) => Some(txns.len()),
        _ => None,
    }
}

// The last total, or why there is none.
fn push_total(text: &mut Vec<u8>, lines: &[Line], catalog: &Catalog) -> Result<(), NoMemory>
    requires items { All (NamesOnlyItems catalog.now) (map line_of lines.now) }
    ensures { OnOk result (text.new.items ≡ text.old.items
        ++ option_map_or (line_text catalog.now) (latest total_in None (map line_of lines.now)) []) }
{
    match last_total(lines) {
        Some(line) => push_line(text, line, catalog),
        None => Ok(()),
    }
}

// The last line that is a total.
fn last_total(lines: &[Line]) -> Option<&Line>
    ensures { option_map (λ line. line_of line.now) result ≡ latest total_in None (map line_of lines.now) }
{
    let mut last = None;
    for line in lines {
        if is_total(line) {
            last = Some(line);
        }
    }
    last
}

fn is_total(line: &Line) -> bool
    ensures { result ≡ is_total (line_of line.now) }
{
    match line {
        Line::Total(_) | Line::TotalLocked(_) | Line::TotalDown(_) | Line::TotalLimit(_) => true,
        _ => false,
    }
}
