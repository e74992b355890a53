// The messages that were sent, and which of them are fresh.
ghost use Rattle.std.specs.Prelude.{◌≡◌, ◌++◌, ◌∷◌, ◌&&◌, ◌==◌, [], true, false, not, length, map, position, set, slice_get, OnOk};
ghost use Rattle.std.specs.List.{position_or_len};
ghost use Rattle.pv_law_decisions.specs.Scene.{without};
ghost use Rattle.pv_quorum_run.specs.Mail.{envelope_of};
ghost use Rattle.pv_quorum_run.specs.Marks.{AreDone};

use pv_base::NoMemory;
use pv_quorum::QuorumMessage;
use std::alloc::Global;
use std::marker::Model;

/// A message that was sent.
#[derive(Clone, Copy, Debug)]
pub(crate) struct Sent {
    /// The decider that sent it.
    pub(crate) from: u8,
    /// The decider that it goes to.
    pub(crate) to: u8,
    /// What it says.
    pub(crate) message: QuorumMessage,
}

/// Every message that was sent, by its number, from 0. A message is fresh while it is neither delivered, lost nor dropped.
#[derive(Drop)]
pub(crate) struct Mail {
    /// The messages.
    sent: Vec<Sent>,
    /// Whether each is fresh.
    fresh: Vec<bool>,
    /// No message below this number is fresh.
    first: usize,
}

impl Model for Mail {
    ghost use Rattle.pv_quorum_run.specs.Mail.{MailState};
    ghost use Rattle.pv_quorum_run.specs.Marks.{AreMarked};

    ghost Value = { MailState };

    ghost view = { λ s. record { sent = s.sent.items; fresh = s.fresh.items } };

    ghost invariant = { λ s. AreMarked s.first s.sent.items s.fresh.items };
}

impl Mail {
    // No message was sent.
    pub(crate) fn new(alloc: Global) -> Mail
        ensures { result ≡ record { sent = []; fresh = [] } }
    {
        Mail {
            sent: Vec::new(alloc),
            fresh: Vec::new(alloc),
            first: 0,
        }
    }

    // Sends a message.
    #[tactic(auto, using(crate::proofs::DoneLemmas::marks))]
    pub(crate) fn post(&mut self, message: Sent) -> Result<(), NoMemory>
        ensures { OnOk result (self.new ≡ record { sent = self.old.sent ++ message ∷ []; fresh = self.old.fresh ++ true ∷ [] }) }
    {
        // The room comes first: no message is added without its mark.
        self.fresh.reserve(1)?;
        self.sent.push(message)?;
        self.fresh.push_reserved(true);
        Ok(())
    }

    // The message of this number, if so many were sent.
    pub(crate) fn get(&self, number: u64) -> Option<Sent>
        ensures { result ≡ slice_get self.now.sent number }
    {
        self.sent.get(number as usize).copied()
    }

    // The message of this number is done, if there is one.
    #[tactic(auto, using(crate::proofs::DoneLemmas::marks))]
    pub(crate) fn finish(&mut self, number: u64)
        ensures { self.new ≡ record self.old { fresh = set self.old.fresh number false } }
    {
        if let Some(mark) = self.fresh.get_mut(number as usize) {
            *mark = false;
        }
    }

    // The least fresh message, if there is one. All calls together take time in proportion to the messages.
    pub(crate) fn next_fresh(&mut self) -> Option<u64>
        ensures found { result ≡ position (λ mark. mark) self.old.fresh }
        ensures unchanged { self.new ≡ self.old }
    {
        self.first = first_mark(&self.fresh, self.first);
        if self.first < self.fresh.len() {
            Some(self.first as u64)
        } else {
            None
        }
    }

    // All messages to the decider are done.
    #[tactic(auto, using(crate::proofs::DoneLemmas::marks))]
    pub(crate) fn drop_to(&mut self, decider: u8)
        ensures { self.new ≡ record self.old { fresh = without decider (map envelope_of self.old.sent) self.old.fresh } }
    {
        drop_marks(&self.sent, &mut self.fresh, decider);
    }
}

// The place of the first mark that is set, or how many there are. None before `from` is.
fn first_mark(marks: &[bool], from: usize) -> usize
    requires { AreDone from marks.now }
    ensures place { result ≡ position_or_len (λ mark. mark) marks.now }
    ensures done { AreDone result marks.now }
{
    for number in from..marks.len() {
        if marks[number] {
            return number;
        }
    }
    marks.len()
}

// Whether the mark of a message to `to` stays where those of messages to the decider are taken.
fn stays(mark: bool, to: u8, decider: u8) -> bool
    ensures { result ≡ (mark && not (to == decider)) }
{
    mark && to != decider
}

// Takes the marks of the messages that go to the decider.
fn drop_marks(sent: &[Sent], fresh: &mut [bool], decider: u8)
    requires { length fresh.old ≡ length sent.now }
    ensures { fresh.new ≡ without decider (map envelope_of sent.now) fresh.old }
{
    for number in 0..sent.len() {
        fresh[number] = stays(fresh[number], sent[number].to, decider);
    }
}
