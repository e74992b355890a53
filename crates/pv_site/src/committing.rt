// What a coordinator makes of a yes: with the last one the transaction commits (Gray, 1978).
ghost use Rattle.std.specs.Prelude.{◌≡◌, ◌++◌, List, Some, map, true, IfOk, OnOk};
ghost use Rattle.pv_base.specs.Polyvalue.{Case};
ghost use Rattle.pv_base.specs.declared.reply.Reply.{Reply};
ghost use Rattle.pv_coord.specs.Coordinator.{voting_work};
ghost use Rattle.pv_coord.specs.Work.{Work};
ghost use Rattle.pv_model.specs.Check as model;
ghost use Rattle.pv_model.specs.PossibleAnswers.{possible};
ghost use Rattle.pv_protocol.specs.Here.{outcome_sends};
ghost use Rattle.pv_protocol.specs.Vote.{committing, on_yes, others_than};
ghost use Rattle.pv_site.specs.Answer.{IsAnswer};
ghost use Rattle.pv_site.specs.Committed.{IsCommitted};
ghost use Rattle.pv_site.specs.LastVote.{deciding};
ghost use Rattle.pv_site.specs.OnLog.{AreReady, StepsOnLog};
ghost use Rattle.pv_site.specs.SiteParts.{here_of, AreTied};
ghost use Rattle.pv_site.specs.Values.{outgoing_of};

use crate::answers::nothing;
use crate::appending::{Written, write};
use crate::parts::SiteParts;
use crate::sure::is_sure;
use crate::{Cause, Note, Outgoing, Step, StepError};
use pv_base::{NoMemory, Reply, SiteId, TxnId};
use pv_check::Part;
use pv_coord::Vote;
use pv_disk::Log;
use pv_query::possible;
use pv_store::Store;
use pv_tree::Poly;
use pv_wire::Message;
use std::alloc::Global;

// A participant votes yes.
#[tactic(auto, using(crate::proofs::LogLemmas::keeps_itself))]
pub(crate) fn take_yes<L: Log>(
    log: &mut L,
    parts: &mut SiteParts,
    alloc: Global,
    from: SiteId,
    txn: TxnId,
) -> Result<Step, StepError>
    requires ready { AreReady L.model log.old parts.old }
    ensures step { StepsOnLog L.model log.old log.new parts.old parts.new (on_yes (here_of parts.old) from.0 txn) result }
    ensures intact { L.model.is_intact log.new }
{
    match parts.coord.vote(txn, from) {
        Vote::Ignored => Ok(nothing(alloc)),
        Vote::Wait => {
            parts.coord.take_vote(txn, from);
            Ok(nothing(alloc))
        }
        Vote::Last => commit(log, parts, alloc, txn),
    }
}

// All have voted yes: the transaction commits, if the journal has room for the record that it does.
#[tactic(auto, using(crate::proofs::LogLemmas::keeps_itself))]
fn commit<L: Log>(
    log: &mut L,
    parts: &mut SiteParts,
    alloc: Global,
    txn: TxnId,
) -> Result<Step, StepError>
    requires ready { AreReady L.model log.old parts.old }
    requires voting { (work : Work) × (voting_work parts.old.coord.contents txn ≡ Some work) }
    ensures step { (work : Work) → voting_work parts.old.coord.contents txn ≡ Some work
        → StepsOnLog L.model log.old log.new parts.old parts.new (deciding (here_of parts.old) work.entry) result }
    ensures intact { L.model.is_intact log.new }
{
    let change = parts.store.plan_settle(txn, true)?;
    let committed = committed(alloc, parts, txn)?;
    match write(log, alloc, change.record()) {
        Ok(Written::Done) => {
            parts.store.apply(change);
            parts.coord.drop_entry(txn);
            parts.locks.release(txn);
            Ok(committed)
        }
        Ok(Written::Full(length)) => {
            let site = parts.me;
            Ok(parts.refuse(alloc, txn, Cause::JournalFull { site, length })?)
        }
        Err(error) => Err(error),
    }
}

// What is sent and reported when the transaction commits.
fn committed(alloc: Global, parts: &SiteParts, txn: TxnId) -> Result<Step, NoMemory>
    requires { AreTied parts.now }
    ensures { (work : Work) → voting_work parts.now.coord.contents txn ≡ Some work
        → IfOk result (λ answer. IsAnswer answer (committing (here_of parts.now) work.entry)) }
{
    let Some(plan) = parts.coord.parts(txn) else {
        return Ok(nothing(alloc));
    };
    let Some(reply) = parts.coord.reply(txn) else {
        return Ok(nothing(alloc));
    };
    let mut sends = Vec::with_capacity(alloc, plan.parts.len())?;
    push_to_others(&mut sends, parts.me, txn, &plan.parts)?;
    let replies = replies_after(alloc, &parts.store, reply, txn)?;
    let mut notes = Vec::with_capacity(alloc, 1)?;
    notes.push(Note::Commit { txn, replies })?;
    Ok(Step {
        sends,
        notes,
        locked: None,
    })
}

// The replies that the transaction may have given, once it has committed.
fn replies_after(
    alloc: Global,
    store: &Store,
    reply: &Poly<Reply>,
    txn: TxnId,
) -> Result<Vec<Reply>, NoMemory>
    ensures { (settled : List (Case Reply)) → IsCommitted store.now.records txn reply.now settled
        → IfOk result (λ replies. replies.items ≡ possible ⟦<Reply as PartialEq>⟧.eq settled) }
{
    if is_sure(reply) {
        return possible(alloc, reply);
    }
    let known = store.settled(alloc, reply)?;
    possible(alloc, &known.settle(alloc, txn, true)?)
}

// Appends that the transaction commits, for the sites of these parts but this one.
fn push_to_others(
    sends: &mut Vec<Outgoing>,
    me: SiteId,
    txn: TxnId,
    parts: &[Part],
) -> Result<(), NoMemory>
    ensures { OnOk result (map outgoing_of sends.new.items
        ≡ map outgoing_of sends.old.items ++ outcome_sends txn true (others_than me.0 (map (λ (part : model.Part). part.site) parts.now))) }
{
    for part in parts {
        if part.site != me {
            sends.push(Outgoing {
                to: part.site,
                message: Message::Outcome { txn, commits: true },
            })?;
        }
    }
    Ok(())
}
