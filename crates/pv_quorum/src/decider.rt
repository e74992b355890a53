// A decider over a log: what it makes of an input.
ghost use Rattle.std.specs.Prelude.{◌≡◌, ◌<◌, ◌≤◌, [], None, Some, true, false, All, IfOk, IfErr, Err};
ghost use Rattle.pv_disk_model.specs.Calls.{read_all};
ghost use Rattle.pv_law_quorum.specs.Decider as rules;
ghost use Rattle.pv_quorum.specs.DeciderState.{IsInput, IsReady, StandsFor};
ghost use Rattle.pv_quorum.specs.Knows.{Knows};
ghost use Rattle.pv_quorum.specs.Makes.{IsMade};
ghost use Rattle.pv_quorum.specs.Opens.{Opens, log_in};
ghost use Rattle.pv_quorum.specs.Spelling.{IsInRange};
ghost use Rattle.pv_quorum.specs.Steps.{Steps};
ghost use Rattle.pv_quorum.specs.Values.{input_of, message_of, txn_in, txn_of};
ghost use Rattle.pv_quorum.specs.declared.error.QuorumError.TheVariants.{Down};

use crate::known::Known;
use crate::made::Made;
use crate::memory::Memory;
use crate::opening::load;
use crate::promising::{on_accept, on_prepare};
use crate::proposing::Proposer;
use crate::writing::{Written, write};
use crate::{OpenDecider, QuorumError, QuorumInput, QuorumMessage, QuorumStep};
use pv_base::NoMemory;
use pv_disk::Log;
use std::alloc::Global;
use std::marker::Model;

/// One of three to five deciders, over a log. Together they fix one outcome for each transaction by the single decree of Paxos (Lamport,
/// 1998): a majority of them is enough, whichever it is.
///
/// What a decider promised and accepted is in its log before it says so; what it proposes is in memory alone. When the log fails the decider
/// is down, and is to be opened again on its log.
#[derive(Drop)]
pub struct Decider<L: Log> {
    /// Where its memory comes from.
    alloc: Global,
    /// Where its records are.
    log: L,
    /// Its number, from 0.
    me: u8,
    /// How many deciders there are.
    count: u8,
    /// What its records say, and what it proposes.
    memory: Memory,
    /// Whether the log failed since the opening.
    down: bool,
}

impl<L: Log> Model for Decider<L> {
    ghost use Rattle.std.specs.Prelude.{◌<◌, ◌≤◌};
    ghost use Rattle.pv_quorum.specs.DeciderState.{DeciderState};

    ghost Value = { DeciderState L };

    ghost view = { λ s. record { me = s.me; count = s.count; known = s.memory.known; is_down = s.down; log = s.log } };

    ghost invariant = { λ s. (3 ≤ s.count) × (s.count ≤ 5) × (s.me < s.count) };
}

impl<L: Log> Decider<L> {
    ghost use Rattle.std.specs.Borrow.{Lends, sem};
    ghost use Rattle.pv_quorum.specs.contracts.decider.Decider.{the_row};
    ghost use Rattle.pv_quorum.specs.Lending.{with_log};

    /// Opens the decider on its log: it reads its records, and proposes nothing. There are `count` deciders, three to five, and this one has the number
    /// `me`, from 0. Takes time in proportion to the log.
    ///
    /// The log isn't down. It comes back in each refusal, of which the first one is answered that there is:
    ///
    /// 1. [`OpenDecider::Failed`], [`OpenDecider::NotOurs`]: the log couldn't be read.
    /// 2. [`OpenDecider::BadRecord`]: a content is no record's.
    ///
    /// [`OpenDecider::NoMemory`] may come at any place.
    pub fn open(alloc: Global, log: L, me: u8, count: u8) -> Result<Decider<L>, OpenDecider<L>>
        requires intact { L.model.is_intact log }
        requires up { L.model.is_down log ≡ false }
        requires fewest { 3 ≤ count }
        requires most { count ≤ 5 }
        requires me { me < count }
        ensures opened { Opens L.model log me count result }
        ensures ready { IfOk result (IsReady L.model) }
        ensures reads { IfOk result (λ decider. L.model.goes log read_all true decider.log) }
        ensures intact { IfErr result (λ refused. L.model.is_intact (log_in refused)) }
    {
        let mut log = log;
        match load(&mut log, alloc) {
            Ok(memory) => Ok(Decider {
                alloc,
                log,
                me,
                count,
                memory,
                down: false,
            }),
            Err(refusal) => Err(refusal.with(log)),
        }
    }

    /// The decider makes a step of the input: it appends the step's record, if there is one, and only then sends and reports. Takes constant time
    /// beside the append, amortized over the transactions that it comes to know.
    ///
    /// The transaction's site is below 16, and a message comes from another decider, with a number below the count.
    ///
    /// - [`QuorumError::Fault`]: the log failed at the record, which it holds or doesn't. Nothing is sent. The decider is down.
    /// - [`QuorumError::Down`]: the decider is down, and nothing changes.
    /// - [`QuorumError::NoMemory`]: the decider is as if the input hadn't come.
    pub fn step(&mut self, input: &QuorumInput) -> Result<QuorumStep, QuorumError>
        requires ready { IsReady L.model self.old }
        requires input { IsInput self.old.me self.old.count input.now }
        ensures step { (here : rules.Here) → StandsFor L.model self.old here → Steps L.model self.old self.new here (input_of input.now) result }
        ensures me { self.new.me ≡ self.old.me }
        ensures count { self.new.count ≡ self.old.count }
        ensures down { self.old.is_down ≡ true → (result ≡ Err Down) × (self.new ≡ self.old) }
        ensures ready { IsReady L.model self.new }
    {
        if self.down {
            return Err(QuorumError::Down);
        }
        self.memory.reserve()?;
        let txn = input.txn();
        let known = self.memory.known(txn);
        let made = make(
            self.alloc,
            Proposer {
                me: self.me,
                count: self.count,
            },
            &known,
            input,
        )?;
        let Made {
            proposal,
            appended,
            sends,
            decided,
            spent,
        } = made;
        let known = Known { proposal, ..known };
        let step = QuorumStep {
            sends,
            decided,
            full: None,
            spent,
        };
        let Some(entry) = appended else {
            self.memory.put(txn, known);
            return Ok(step);
        };
        match write(&mut self.log, self.alloc, entry) {
            Ok(Written::Done) => {
                self.memory.put(txn, known.and(entry));
                Ok(step)
            }
            Ok(Written::Full(length)) => Ok(full_step(self.alloc, length)),
            Err(QuorumError::Fault) => {
                self.down = true;
                Err(QuorumError::Fault)
            }
            Err(QuorumError::NoMemory) => Err(QuorumError::NoMemory),
            // The log isn't down.
            Err(QuorumError::Down) => unreachable!(),
        }
    }

    /// The log, lent, so that who knows what it stands on can arm that and mend it. Whoever adds to it breaks the decider: its steps that come after
    /// need the log as it was.
    pub fn log(&mut self) -> &mut L
        ensures* lends { sem 𝓛 (Lends (the_row L.row L.Log) L.row self.entry result (with_log self.old)) }
        ensures value { result.now ≡ self.old.log }
    {
        &mut self.log
    }

    /// The log, also of a decider that is down; to be opened again, it mustn't be down itself. What the decider proposes is forgotten. Takes
    /// constant time and no memory.
    pub fn close(self) -> L
        ensures { result ≡ self.log }
    {
        self.log
    }
}

// The step of a decider whose log has no room for the step's record.
fn full_step(alloc: Global, length: u64) -> QuorumStep
    ensures step { result ≡ record { sends = result.sends; decided = None; full = Some length; spent = false } }
    ensures sends { result.sends.items ≡ [] }
{
    QuorumStep {
        sends: Vec::new(alloc),
        decided: None,
        full: Some(length),
        spent: false,
    }
}

// What the decider makes of an input by what it knows of its transaction.
fn make(
    alloc: Global,
    proposer: Proposer,
    known: &Known,
    input: &QuorumInput,
) -> Result<Made, NoMemory>
    requires me { proposer.me < 5 }
    requires count { proposer.count ≤ 5 }
    requires input { IsInput proposer.me proposer.count input.now }
    ensures { (setup : rules.Setup) (here : rules.Here) → setup.deciders ≡ proposer.count → here.me ≡ proposer.me → All IsInRange here.records
        → Knows here (txn_of input.now) known.now
        → IfOk result (λ made. IsMade proposer.me (txn_of input.now) made (rules.answer_to setup here (input_of input.now))) }
{
    match *input {
        QuorumInput::Propose { txn, commits } => proposer.on_propose(alloc, txn, commits, known),
        QuorumInput::Take { from, message } => take(alloc, proposer, known, from, message),
    }
}

// What the decider makes of a message.
fn take(
    alloc: Global,
    proposer: Proposer,
    known: &Known,
    from: u8,
    message: QuorumMessage,
) -> Result<Made, NoMemory>
    requires me { proposer.me < 5 }
    requires count { proposer.count ≤ 5 }
    requires from { from < 5 }
    ensures { (setup : rules.Setup) (here : rules.Here) → setup.deciders ≡ proposer.count → here.me ≡ proposer.me → All IsInRange here.records
        → Knows here (txn_in message) known.now
        → IfOk result (λ made. IsMade proposer.me (txn_in message) made (rules.answer_to setup here (rules.receive from (message_of message)))) }
{
    match message {
        QuorumMessage::Prepare { txn, ballot } => on_prepare(alloc, from, txn, ballot, known),
        QuorumMessage::Promise { txn, ballot, last } => {
            proposer.on_promise(alloc, from, txn, ballot, last, known)
        }
        QuorumMessage::Accept {
            txn,
            ballot,
            commits,
        } => on_accept(alloc, from, txn, ballot, commits, known),
        QuorumMessage::Accepted { txn, ballot } => {
            Ok(proposer.on_accepted(alloc, from, txn, ballot, known))
        }
    }
}
