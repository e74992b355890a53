// What notes print.
ghost use Rattle.std.specs.Prelude.{◌≡◌, IfOk};
ghost use Rattle.pv_protocol.specs.Lines as model;
ghost use Rattle.pv_script.specs.LineView as line;
ghost use Rattle.pv_site.specs.Values.{cause_of, note_of};

use pv_base::{NoMemory, SiteId, TxnId};
use pv_script::Line;
use pv_site::{Cause, Note};
use std::alloc::Global;

/// What a note of the site prints. The replies of a commit are copied.
pub fn line_of(alloc: Global, site: SiteId, note: &Note) -> Result<Line, NoMemory>
    ensures { IfOk result (λ printed. line.line_of printed ≡ model.line_of site.0 (note_of note.now)) }
{
    match note {
        Note::Txn(txn) => Ok(Line::Txn(*txn)),
        Note::Commit { txn, replies } => Ok(Line::Commit {
            txn: *txn,
            replies: Vec::from_slice(alloc, replies)?,
        }),
        Note::Refuse { txn, cause } => Ok(refusal(*txn, *cause)),
        Note::Full(length) => Ok(Line::Full {
            site,
            length: *length,
        }),
        Note::Spent => Ok(Line::Spent(site)),
    }
}

// That the transaction is refused for this cause.
fn refusal(txn: TxnId, cause: Cause) -> Line
    ensures { line.line_of result ≡ model.Line.refuse txn (cause_of cause) }
{
    match cause {
        Cause::Conflict { site, item, holder } => Line::RefuseConflict {
            txn,
            site,
            item,
            holder,
        },
        Cause::OutcomeLimit(names) => Line::RefuseLimit { txn, names },
        Cause::Uncertain { item, outcomes } => Line::RefuseUncertain {
            txn,
            item,
            names: outcomes,
        },
        Cause::Expired(site) => Line::RefuseExpired { txn, site },
        Cause::GrantLost(site) => Line::RefuseLost { txn, site },
        Cause::JournalFull { site, length } => Line::RefuseFull { txn, site, length },
    }
}
