// What the steps of sites print.
ghost use Rattle.std.specs.Prelude.{◌≡◌, ◌++◌, ◌∷◌, [], map, OnOk};
ghost use Rattle.pv_protocol.specs.Arms.{broken_line};
ghost use Rattle.pv_protocol.specs.Lines as model;
ghost use Rattle.pv_protocol.specs.Lines.{lines_of};
ghost use Rattle.pv_script.specs.LineView.{line_of};
ghost use Rattle.pv_site.specs.Values.{cause_of, note_of};

use pv_base::{NoMemory, SiteId, TxnId};
use pv_script::Line;
use pv_site::{Cause, Note};

/// Adds what the notes of a step of this site print, in their order.
pub(crate) fn push_notes(
    lines: &mut Vec<Line>,
    site: SiteId,
    notes: Vec<Note>,
) -> Result<(), NoMemory>
    ensures { OnOk result (map line_of lines.new.items ≡ map line_of lines.old.items ++ lines_of site.0 (map note_of notes.items)) }
{
    for note in notes {
        push_note(lines, site, note)?;
    }
    Ok(())
}

/// What is printed where a write or a sync of a site's disk fires: that the site has stopped, or that its disk failed.
pub(crate) fn broken_line(site: SiteId, stops: bool) -> Line
    ensures { line_of result ≡ broken_line site.0 stops }
{
    if stops {
        Line::Stopped(site)
    } else {
        Line::Fault(site)
    }
}

// Adds what a note of the site prints.
fn push_note(lines: &mut Vec<Line>, site: SiteId, note: Note) -> Result<(), NoMemory>
    ensures { OnOk result (map line_of lines.new.items ≡ map line_of lines.old.items ++ model.line_of site.0 (note_of note) ∷ []) }
{
    lines.push(line_of(site, note))?;
    Ok(())
}

// What a note of the site prints.
fn line_of(site: SiteId, note: Note) -> Line
    ensures { line_of result ≡ model.line_of site.0 (note_of note) }
{
    match note {
        Note::Txn(txn) => Line::Txn(txn),
        Note::Commit { txn, replies } => Line::Commit { txn, replies },
        Note::Refuse { txn, cause } => refusal(txn, cause),
        Note::Full(length) => Line::Full { site, length },
        Note::Spent => Line::Spent(site),
    }
}

// That the transaction is refused for this cause.
fn refusal(txn: TxnId, cause: Cause) -> Line
    ensures { line_of result ≡ model.Line.refuse txn (cause_of cause) }
{
    match cause {
        Cause::Conflict { site, item, holder } => Line::RefuseConflict {
            txn,
            site,
            item,
            holder,
        },
        Cause::OutcomeLimit(names) => Line::RefuseLimit { txn, names },
        Cause::Uncertain { item, outcomes } => Line::RefuseUncertain {
            txn,
            item,
            names: outcomes,
        },
        Cause::Expired(site) => Line::RefuseExpired { txn, site },
        Cause::GrantLost(site) => Line::RefuseLost { txn, site },
        Cause::JournalFull { site, length } => Line::RefuseFull { txn, site, length },
    }
}
