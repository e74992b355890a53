// How a transaction is refused, and what refuses one: a denial, a no, and an expiry.
ghost use Rattle.std.specs.Prelude.{◌≡◌, ◌++◌, Some, map, IfOk, OnOk};
ghost use Rattle.pv_model.specs.Check as model;
ghost use Rattle.pv_protocol.specs.Granted.{on_denied};
ghost use Rattle.pv_protocol.specs.Here.{outcome_sends, refusing};
ghost use Rattle.pv_protocol.specs.Keyed.{of_txn};
ghost use Rattle.pv_protocol.specs.State.{Entry};
ghost use Rattle.pv_protocol.specs.Vote as voted;
ghost use Rattle.pv_protocol.specs.Vote.{on_no};
ghost use Rattle.pv_site.specs.SiteParts.{here_of, AreTied, StepParts};
ghost use Rattle.pv_site.specs.Values.{cause_of, outgoing_of};
ghost use Rattle.pv_wire.specs.Values as wire;

use crate::answers::nothing;
use crate::parts::SiteParts;
use crate::{Cause, Note, Outgoing, Step};
use pv_base::{ItemId, NoMemory, SiteId, TxnId};
use pv_check::Part;
use pv_coord::Vote;
use pv_wire::{Message, NoCause};
use std::alloc::Global;

impl SiteParts {
    // The transaction is refused: its entry is dropped, and every participant is sent that it doesn't commit.
    pub(crate) fn refuse(
        &mut self,
        alloc: Global,
        txn: TxnId,
        cause: Cause,
    ) -> Result<Step, NoMemory>
        requires { AreTied self.old }
        ensures { (entry : Entry) → of_txn (λ (entry : Entry). entry.txn) txn (here_of self.old).running.entries ≡ Some entry
            → StepParts self.old self.new (refusing (here_of self.old) entry (cause_of cause)) result }
    {
        let Some(plan) = self.coord.parts(txn) else {
            return Ok(nothing(alloc));
        };
        let sends = outcome_sends(alloc, txn, false, &plan.parts)?;
        let mut notes = Vec::new(alloc);
        notes.push(Note::Refuse { txn, cause })?;
        self.coord.drop_entry(txn);
        Ok(Step {
            sends,
            notes,
            locked: None,
        })
    }

    // A participant can't grant the locks.
    pub(crate) fn on_denied(
        &mut self,
        alloc: Global,
        from: SiteId,
        txn: TxnId,
        item: ItemId,
        holder: TxnId,
    ) -> Result<Step, NoMemory>
        requires { AreTied self.old }
        ensures { StepParts self.old self.new (on_denied (here_of self.old) from.0 txn item.0 holder) result }
    {
        if !self.coord.denied(txn, from, item) {
            return Ok(nothing(alloc));
        }
        let site = from;
        self.refuse(alloc, txn, Cause::Conflict { site, item, holder })
    }

    // A participant votes no.
    pub(crate) fn on_no(
        &mut self,
        alloc: Global,
        from: SiteId,
        txn: TxnId,
        cause: NoCause,
    ) -> Result<Step, NoMemory>
        requires { AreTied self.old }
        ensures { StepParts self.old self.new (on_no (here_of self.old) from.0 txn (wire.cause_of cause)) result }
    {
        match self.coord.vote(txn, from) {
            Vote::Ignored => Ok(nothing(alloc)),
            Vote::Wait | Vote::Last => self.refuse(alloc, txn, cause_at(from, cause)),
        }
    }
}

// Why a transaction is refused that this site voted no on.
fn cause_at(site: SiteId, cause: NoCause) -> Cause
    ensures { cause_of result ≡ voted.cause_of site.0 (wire.cause_of cause) }
{
    match cause {
        NoCause::GrantLost => Cause::GrantLost(site),
        NoCause::JournalFull(length) => Cause::JournalFull { site, length },
    }
}

// The outcome of the transaction, for the sites of these parts.
pub(crate) fn outcome_sends(
    alloc: Global,
    txn: TxnId,
    commits: bool,
    parts: &[Part],
) -> Result<Vec<Outgoing>, NoMemory>
    ensures { IfOk result (λ sends. map outgoing_of sends.items ≡ outcome_sends txn commits (map (λ (part : model.Part). part.site) parts.now)) }
{
    let mut sends = Vec::new(alloc);
    push_outcomes(&mut sends, txn, commits, parts)?;
    Ok(sends)
}

// Appends the outcome of the transaction, for the sites of these parts.
pub(crate) fn push_outcomes(
    sends: &mut Vec<Outgoing>,
    txn: TxnId,
    commits: bool,
    parts: &[Part],
) -> Result<(), NoMemory>
    ensures { OnOk result (map outgoing_of sends.new.items
        ≡ map outgoing_of sends.old.items ++ outcome_sends txn commits (map (λ (part : model.Part). part.site) parts.now)) }
{
    for part in parts {
        sends.push(Outgoing {
            to: part.site,
            message: Message::Outcome { txn, commits },
        })?;
    }
    Ok(())
}
