// What a site lets out and shows, as bytes: messages as they are between sites, and the rest as the lines that a run prints.
ghost use Rattle.std.specs.Prelude.{◌≡◌, ℕ, IfOk, OnErr};
ghost use Rattle.pv_protocol.specs.LineText.{line_text};
ghost use Rattle.pv_protocol.specs.Lines as model;
ghost use Rattle.pv_protocol.specs.Report.{item_line};
ghost use Rattle.pv_report.specs.NamesOnlyItems.{HasItem, NamesOnlyItems};
ghost use Rattle.pv_script.specs.LineView.{line_of};
ghost use Rattle.pv_site.specs.Values.{cause_of, note_of};
ghost use Rattle.pv_world.specs.Readings.{reading_in};
ghost use Rattle.pv_embed.specs.Outputs.{out_of};
ghost use Rattle.pv_handle.specs.ByteSite.{CanGive, GivesOut, IsOutInBytes, goes_to};

use crate::given::{Given, give};
use pv_base::{Catalog, ItemId, NoMemory, SiteId, TxnId};
use pv_cases::copy_cases;
use pv_embed::{Note, Output, Shown};
use pv_report::print;
use pv_script::Line;
use pv_site::Cause;
use pv_wire::encode;
use std::alloc::Global;

/// Where a report goes. No site has this number.
pub const REPORT: u64 = 255;

/// Writes what the site lets out, if there is room and memory for it.
pub(crate) fn give_output(
    alloc: Global,
    output: &Output,
    me: SiteId,
    catalog: &Catalog,
    out: &mut [u8],
) -> Result<Given, NoMemory>
    requires { CanGive me.0 catalog.now (out_of output.now) }
    ensures given { IfOk result (GivesOut me.0 catalog.now (out_of output.now) out.old out.new) }
    ensures unchanged { OnErr result (out.new ≡ out.old) }
{
    let bytes = bytes_of(alloc, output, me, catalog)?;
    Ok(give(&bytes, goes_to(output), out))
}

// What the site lets out, as bytes.
fn bytes_of(
    alloc: Global,
    output: &Output,
    me: SiteId,
    catalog: &Catalog,
) -> Result<Vec<u8>, NoMemory>
    requires { CanGive me.0 catalog.now (out_of output.now) }
    ensures { IfOk result (λ bytes. IsOutInBytes me.0 catalog.now (out_of output.now) bytes.items) }
{
    match output {
        Output::Message(envelope) => encode(alloc, envelope),
        Output::Note(note) => note_text(alloc, me, note, catalog),
    }
}

// Where it goes.
fn goes_to(output: &Output) -> u64
    ensures { result ≡ goes_to (out_of output.now) }
{
    match output {
        Output::Message(envelope) => envelope.to.0 as u64,
        Output::Note(_) => REPORT,
    }
}

/// What a site shows of an item, as the line that a report has for it.
pub(crate) fn shown_text(
    alloc: Global,
    item: ItemId,
    shown: Shown<'_>,
    catalog: &Catalog,
) -> Result<Vec<u8>, NoMemory>
    requires { HasItem catalog.now item.0 }
    ensures { (site : ℕ) → IfOk result (λ text. text.items ≡ line_text catalog.now (item_line item.0 (reading_in site shown.entry))) }
{
    let line = shown_line(alloc, item, shown)?;
    print(alloc, &line, catalog)
}

// The line of a note of the site, as text.
fn note_text(alloc: Global, me: SiteId, note: &Note, catalog: &Catalog) -> Result<Vec<u8>, NoMemory>
    requires { NamesOnlyItems catalog.now (model.line_of me.0 (note_of note.now)) }
    ensures { IfOk result (λ text. text.items ≡ line_text catalog.now (model.line_of me.0 (note_of note.now))) }
{
    let line = note_line(alloc, me, note)?;
    print(alloc, &line, catalog)
}

// The line of a note of the site.
fn note_line(alloc: Global, me: SiteId, note: &Note) -> Result<Line, NoMemory>
    ensures { IfOk result (λ line. line_of line ≡ model.line_of me.0 (note_of note.now)) }
{
    Ok(match note {
        Note::Txn(txn) => Line::Txn(*txn),
        Note::Commit { txn, replies } => Line::Commit {
            txn: *txn,
            replies: Vec::from_slice(alloc, replies)?,
        },
        Note::Refuse { txn, cause } => refusal(*txn, *cause),
        Note::Full(length) => Line::Full {
            site: me,
            length: *length,
        },
        Note::Spent => Line::Spent(me),
    })
}

// That the transaction is refused for this cause.
fn refusal(txn: TxnId, cause: Cause) -> Line
    ensures { line_of result ≡ model.Line.refuse txn (cause_of cause) }
{
    match cause {
        Cause::Conflict { site, item, holder } => Line::RefuseConflict {
            txn,
            site,
            item,
            holder,
        },
        Cause::OutcomeLimit(names) => Line::RefuseLimit { txn, names },
        Cause::Uncertain { item, outcomes } => Line::RefuseUncertain {
            txn,
            item,
            names: outcomes,
        },
        Cause::Expired(site) => Line::RefuseExpired { txn, site },
        Cause::GrantLost(site) => Line::RefuseLost { txn, site },
        Cause::JournalFull { site, length } => Line::RefuseFull { txn, site, length },
    }
}

// What a site shows of an item, as a line.
fn shown_line(alloc: Global, item: ItemId, shown: Shown<'_>) -> Result<Line, NoMemory>
    ensures { (site : ℕ) → IfOk result (λ line. line_of line ≡ item_line item.0 (reading_in site shown.entry)) }
{
    Ok(match shown {
        Shown::Down => Line::ItemDown(item),
        Shown::Locked(txn) => Line::ItemLocked { item, txn },
        Shown::Cases(value) => Line::Item {
            item,
            cases: copy_cases(alloc, value.cases())?,
        },
    })
}
