// A line as JSON.
ghost use Rattle.std.specs.Prelude.{◌≡◌, ◌++◌, IfOk, OnErr, OnOk};
ghost use Rattle.pv_report.specs.LineData.{data_of};
ghost use Rattle.pv_report.specs.LineJson.{json_line};
ghost use Rattle.pv_report.specs.NamesArePlain.{NamesArePlain};
ghost use Rattle.pv_report.specs.NamesOnlyItems.{NamesOnlyItems};
ghost use Rattle.pv_script.specs.LineView.{line_of};
ghost use Rattle.serde_json.specs.View.{view};

use crate::json_lines::{
    refused_by_doubt, refused_by_holder, refused_by_journal, refused_by_limit, refused_by_site,
    sent,
};
use crate::json_values::{
    cases_value, name_value, one, replies_value, sums_value, two, txn_value, txns_value,
};
use pv_base::{Catalog, NoMemory};
use pv_script::Line;
use serde_json::Value;
use std::alloc::Global;

/// The line as JSON, an object with its line feed. Items stand there by the names that they have in the catalog. Takes time in proportion
/// to the text.
pub fn json(alloc: Global, line: &Line, catalog: &Catalog) -> Result<Vec<u8>, NoMemory>
    requires items { NamesOnlyItems catalog.now (line_of line.now) }
    ensures { IfOk result (λ text. text.items ≡ json_line catalog.now (line_of line.now)) }
{
    let value = value_of(alloc, line, catalog)?;
    let mut text = value.to_vec(alloc)?;
    text.push(b'\n')?;
    Ok(text)
}

/// Puts the line, as [`json`] prints it, after what the buffer holds. After an error the buffer is as it was. Takes time in proportion to
/// the line's text.
pub fn push_json(text: &mut Vec<u8>, line: &Line, catalog: &Catalog) -> Result<(), NoMemory>
    requires items { NamesOnlyItems catalog.now (line_of line.now) }
    ensures text { OnOk result (text.new.items ≡ text.old.items ++ json_line catalog.now (line_of line.now)) }
    ensures unchanged { OnErr result (text.new.items ≡ text.old.items) }
{
    let printed = json(*text.allocator(), line, catalog)?;
    Ok(text.extend_from_slice(&printed)?)
}

// The line's object.
#[tactic(auto, unfolding(crate::specs::LineData::data_of))]
fn value_of(alloc: Global, line: &Line, catalog: &Catalog) -> Result<Value, NoMemory>
    requires items { NamesOnlyItems catalog.now (line_of line.now) }
    ensures value { IfOk result (λ value. view value ≡ data_of catalog.now (line_of line.now)) }
    ensures plain { IfOk result (λ _. NamesArePlain catalog.now (line_of line.now)) }
{
    match line {
        Line::Txn(txn) => one(alloc, "txn", txn_value(alloc, *txn)?),
        Line::Commit { txn, replies } => {
            let replies = replies_value(alloc, replies)?;
            two(alloc, "commit", txn_value(alloc, *txn)?, "replies", replies)
        }
        Line::RefuseConflict {
            txn,
            site,
            item,
            holder,
        } => refused_by_holder(alloc, *txn, *site, *item, *holder, catalog),
        Line::RefuseLimit { txn, names } => refused_by_limit(alloc, *txn, *names),
        Line::RefuseUncertain { txn, item, names } => {
            refused_by_doubt(alloc, *txn, *item, *names, catalog)
        }
        Line::RefuseExpired { txn, site } => refused_by_site(alloc, "expired", *txn, *site),
        Line::RefuseLost { txn, site } => refused_by_site(alloc, "grant-lost", *txn, *site),
        Line::RefuseFull { txn, site, length } => refused_by_journal(alloc, *txn, *site, *length),
        Line::Full { site, length } => {
            two(
                alloc,
                "full",
                Value::from(site.0),
                "length",
                Value::from(*length),
            )
        }
        Line::Spent(site) => one(alloc, "spent", Value::from(site.0)),
        Line::Down(site) => one(alloc, "down", Value::from(site.0)),
        Line::Up(site) => one(alloc, "up", Value::from(site.0)),
        Line::Stopped(site) => one(alloc, "stopped", Value::from(site.0)),
        Line::Fault(site) => one(alloc, "fault", Value::from(site.0)),
        Line::Started { site, epoch } => {
            two(
                alloc,
                "epoch",
                Value::from(*epoch),
                "started",
                Value::from(site.0),
            )
        }
        Line::NoMessage(number) => one(alloc, "no-message", Value::from(*number)),
        Line::Sent {
            number,
            from,
            to,
            kind,
            txn,
        } => sent(alloc, *number, *from, *to, *kind, *txn),
        Line::Order(txns) => one(alloc, "order", txns_value(alloc, txns)?),
        Line::Committed(txns) => one(alloc, "committed", txns_value(alloc, txns)?),
        Line::OpenOnes(txns) => one(alloc, "open", txns_value(alloc, txns)?),
        Line::Item { item, cases } => {
            let cases = cases_value(alloc, cases)?;
            two(
                alloc,
                "cases",
                cases,
                "item",
                name_value(alloc, *item, catalog)?,
            )
        }
        Line::ItemLocked { item, txn } => {
            let name = name_value(alloc, *item, catalog)?;
            two(alloc, "item", name, "locked", txn_value(alloc, *txn)?)
        }
        Line::ItemDown(item) => {
            let name = name_value(alloc, *item, catalog)?;
            two(alloc, "down", Value::Bool(true), "item", name)
        }
        Line::End => one(alloc, "end", Value::Bool(true)),
        Line::Total(sums) => one(alloc, "total", sums_value(alloc, sums)?),
        Line::TotalLocked(item) => {
            let name = name_value(alloc, *item, catalog)?;
            two(alloc, "locked", name, "total", Value::Null)
        }
        Line::TotalDown(site) => two(alloc, "down", Value::from(site.0), "total", Value::Null),
        Line::TotalLimit(names) => two(alloc, "names", Value::from(*names), "total", Value::Null),
    }
}
