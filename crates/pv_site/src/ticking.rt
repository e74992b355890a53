// Ticks, and the questions that they bring: which outcome a transaction has.
ghost use Rattle.std.specs.Prelude.{◌≡◌, ◌≤◌, ◌+◌, ◌++◌, map, filter, is_none, IfOk, OnOk, length, vec_len, vec_capacity};
ghost use Rattle.std.specs.List.{flat_map};
ghost use Rattle.pv_locks.specs.LockTable.{grant_of};
ghost use Rattle.pv_protocol.specs.Outcome.{on_ask};
ghost use Rattle.pv_protocol.specs.Tick.{on_tick, ask_sends};
ghost use Rattle.pv_site.specs.SiteParts.{here_of, AreTied, StepParts};
ghost use Rattle.pv_site.specs.Refusals.{refusal_sends, refusal_note};
ghost use Rattle.pv_site.specs.Values.{outgoing_of, note_of};

use crate::answers::{nothing, sending};
use crate::parts::SiteParts;
use crate::refusing::push_outcomes;
use crate::{Cause, Note, Outgoing, Step};
use pv_base::{NoMemory, SiteId, TxnId};
use pv_coord::{Coord, Expiry};
use pv_locks::Locks;
use pv_wire::Message;
use std::alloc::Global;

impl SiteParts {
    // Grants end and entries are refused at their last tick. Then the outcomes are asked for that shown values name, of transactions that
    // have no grant here.
    pub(crate) fn on_tick(&mut self, alloc: Global) -> Result<Step, NoMemory>
        requires { AreTied self.old }
        ensures { StepParts self.old self.new (on_tick (here_of self.old)) result }
    {
        let expiries = self.coord.plan_tick()?;
        let mentioned = self.store.mentioned()?;
        let mut sends = Vec::new(alloc);
        push_refusals(&mut sends, &self.coord, &expiries)?;
        let notes = refusal_notes(alloc, &expiries)?;
        sends.reserve(mentioned.len())?;
        self.coord.apply_tick();
        self.locks.tick();
        push_questions(&mut sends, &self.locks, &mentioned);
        Ok(Step {
            sends,
            notes,
            locked: None,
        })
    }

    // A site asks for an outcome. Of a transaction that neither committed nor is worked on it is that it doesn't commit.
    pub(crate) fn on_ask(
        &mut self,
        alloc: Global,
        from: SiteId,
        txn: TxnId,
    ) -> Result<Step, NoMemory>
        requires { AreTied self.old }
        ensures { StepParts self.old self.new (on_ask (here_of self.old) from.0 txn) result }
    {
        if !self.coord.issued(txn) {
            return Ok(nothing(alloc));
        }
        let commits = self.store.known(txn) == Some(true);
        if !commits && self.coord.works(txn) {
            return Ok(nothing(alloc));
        }
        sending(alloc, from, Message::Outcome { txn, commits })
    }
}

// Appends that each of these transactions doesn't commit, for its participants.
fn push_refusals(
    sends: &mut Vec<Outgoing>,
    coord: &Coord,
    expiries: &[Expiry],
) -> Result<(), NoMemory>
    ensures { OnOk result (map outgoing_of sends.new.items
        ≡ map outgoing_of sends.old.items ++ flat_map (λ (expiry : Expiry). refusal_sends coord.now.contents expiry.txn) expiries.now) }
{
    for expiry in expiries {
        push_refusal(sends, coord, expiry.txn)?;
    }
    Ok(())
}

// Appends that the transaction doesn't commit, for its participants.
fn push_refusal(sends: &mut Vec<Outgoing>, coord: &Coord, txn: TxnId) -> Result<(), NoMemory>
    ensures { OnOk result (map outgoing_of sends.new.items ≡ map outgoing_of sends.old.items ++ refusal_sends coord.now.contents txn) }
{
    let Some(plan) = coord.parts(txn) else {
        return Ok(());
    };
    push_outcomes(sends, txn, false, &plan.parts)
}

// Each of these transactions is refused for the site that it waited for.
fn refusal_notes(alloc: Global, expiries: &[Expiry]) -> Result<Vec<Note>, NoMemory>
    ensures { IfOk result (λ notes. map note_of notes.items ≡ map refusal_note expiries.now) }
{
    let mut notes = Vec::new(alloc);
    for expiry in expiries {
        notes.push(Note::Refuse {
            txn: expiry.txn,
            cause: Cause::Expired(expiry.site),
        })?;
    }
    Ok(notes)
}

// Appends a question for the outcome of each of these transactions that has no grant.
fn push_questions(sends: &mut Vec<Outgoing>, locks: &Locks, txns: &[TxnId])
    requires { vec_len sends.old + length txns.now ≤ vec_capacity sends.old }
    ensures { map outgoing_of sends.new.items
        ≡ map outgoing_of sends.old.items ++ ask_sends (filter (λ (txn : TxnId). is_none (grant_of locks.now txn)) txns.now) }
{
    for txn in txns {
        if locks.holds(*txn).is_none() {
            sends.push_reserved(Outgoing {
                to: txn.site,
                message: Message::Ask { txn: *txn },
            });
        }
    }
}
