// What a decider makes of an input, before anything is recorded.
ghost use Rattle.std.specs.Prelude.{◌≡◌, ◌==◌, ◌∷◌, ◌++◌, [], None, false, if◌then◌else◌, IfOk, OnOk, map};
ghost use Rattle.pv_law_quorum.specs.Decider as rules;
ghost use Rattle.pv_quorum.specs.Values.{message_of, outgoing_of};

use crate::known::Proposal;
use crate::record::Record;
use crate::{QuorumMessage, QuorumSend};
use pv_base::{NoMemory, TxnId};
use std::alloc::Global;

/// What a decider makes of an input: what it proposes then for the transaction, the record that it appends if it appends one, and what it
/// sends and reports after that.
#[derive(Debug, Drop)]
pub(crate) struct Made {
    /// What it proposes then for the transaction.
    pub(crate) proposal: Option<Proposal>,
    /// The record that it appends, if it appends one.
    pub(crate) appended: Option<Record>,
    /// What it sends after that.
    pub(crate) sends: Vec<QuorumSend>,
    /// The outcome that is decided.
    pub(crate) decided: Option<(TxnId, bool)>,
    /// Whether no number is left for a ballot.
    pub(crate) spent: bool,
}

impl Made {
    // Nothing is recorded, sent or reported, and this is what is proposed then.
    pub(crate) fn holding(alloc: Global, proposal: Option<Proposal>) -> Made
        ensures made { result ≡ record { proposal = proposal; appended = None; sends = result.sends; decided = None; spent = false } }
        ensures sends { result.sends.items ≡ [] }
    {
        Made {
            proposal,
            appended: None,
            sends: Vec::new(alloc),
            decided: None,
            spent: false,
        }
    }
}

// The message to one decider.
pub(crate) fn to_one(
    alloc: Global,
    to: u8,
    message: QuorumMessage,
) -> Result<Vec<QuorumSend>, NoMemory>
    ensures { IfOk result (λ sends. map outgoing_of sends.items ≡ record { to = to; message = message_of message } ∷ []) }
{
    let mut sends = Vec::new(alloc);
    sends.push(QuorumSend { to, message })?;
    Ok(sends)
}

// The message to each of so many deciders but this one.
pub(crate) fn to_others(
    alloc: Global,
    count: u8,
    me: u8,
    message: QuorumMessage,
) -> Result<Vec<QuorumSend>, NoMemory>
    ensures { IfOk result (λ sends. map outgoing_of sends.items ≡ rules.to_others count me (message_of message)) }
{
    let mut sends = Vec::new(alloc);
    for to in 0..count {
        push_unless(&mut sends, me, QuorumSend { to, message })?;
    }
    Ok(sends)
}

// Puts the message behind these, unless it goes to this decider.
fn push_unless(sends: &mut Vec<QuorumSend>, me: u8, send: QuorumSend) -> Result<(), NoMemory>
    ensures { OnOk result (map outgoing_of sends.new.items ≡ map outgoing_of sends.old.items ++ (if send.to == me then [] else outgoing_of send ∷ [])) }
{
    if send.to != me {
        sends.push(send)?;
    }
    Ok(())
}
