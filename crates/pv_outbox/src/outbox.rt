// An outbox over a log: what it holds, learns and releases.
ghost use Rattle.std.specs.Prelude.{◌≡◌, ◌<◌, ℕ, true, false, List, Err, IfOk, IfErr};
ghost use Rattle.pv_base.specs.declared.limits.TheConstants.{MAX_SITES};
ghost use Rattle.pv_disk_model.specs.Calls.{read_all};
ghost use Rattle.pv_format.specs.PolyvalueSpelling.{SpellsPolyvalue};
ghost use Rattle.pv_outbox.specs.Calls.{Holds, Learns, Takes};
ghost use Rattle.pv_outbox.specs.Opens.{Opens, log_in};
ghost use Rattle.pv_outbox.specs.OutboxState.{IsUsable};
ghost use Rattle.pv_outbox.specs.declared.error.BoxError.TheVariants.{Down};

use crate::memory::Memory;
use crate::opening::load;
use crate::record::{held_bytes, learnt_bytes, taken_bytes};
use crate::writing::{append, make_room};
use crate::{BoxError, OpenOutbox};
use pv_base::TxnId;
use pv_disk::Log;
use pv_tree::Poly;
use std::alloc::Global;
use std::marker::Model;

/// Outputs that are held back under conditions, over a log. An output is *ready* where it is held and not released, and its condition is 1
/// at every assignment that agrees with the outcomes that were learnt. Of several records that hold one output, or learn the outcome of
/// one transaction, the first counts.
///
/// What is held and learnt is in the log before it is answered, and so is a release: an output is released at most once, also where
/// the process stops at any moment and the outbox is opened again. When the log fails the outbox is down, and is to be opened again on its log.
#[derive(Drop)]
pub struct Outbox<L: Log> {
    /// Where its memory comes from.
    alloc: Global,
    /// Where its records are.
    log: L,
    /// What they say.
    memory: Memory,
    /// Whether the log failed since the opening.
    down: bool,
}

impl<L: Log> Model for Outbox<L> {
    ghost use Rattle.pv_outbox.specs.OutboxState.{OutboxState};

    ghost Value = { OutboxState L };

    ghost view = { λ s. record { state = s.memory.facts.state; is_down = s.down; log = s.log } };
}

impl<L: Log> Outbox<L> {
    ghost use Rattle.std.specs.Borrow.{Lends, sem};
    ghost use Rattle.pv_outbox.specs.contracts.outbox.Outbox.{the_row};
    ghost use Rattle.pv_outbox.specs.Lending.{with_log};

    /// Opens an outbox on its log. Takes time in proportion to the log.
    ///
    /// The log isn't down. It comes back in each refusal, of which the first one is answered that there is:
    ///
    /// 1. [`OpenOutbox::Failed`], [`OpenOutbox::NotOurs`]: the log couldn't be read.
    /// 2. [`OpenOutbox::BadRecord`]: a content is no record's.
    ///
    /// [`OpenOutbox::NoMemory`] may come at any place.
    pub fn open(alloc: Global, log: L) -> Result<Outbox<L>, OpenOutbox<L>>
        requires intact { L.model.is_intact log }
        requires up { L.model.is_down log ≡ false }
        ensures opened { Opens L.model log result }
        ensures usable { IfOk result (IsUsable L.model) }
        ensures reads { IfOk result (λ outbox. L.model.goes log read_all true outbox.log) }
        ensures intact { IfErr result (λ refused. L.model.is_intact (log_in refused)) }
    {
        let mut log = log;
        let facts = match load(&mut log, alloc) {
            Ok(facts) => facts,
            Err(refusal) => return Err(refusal.with(log)),
        };
        match Memory::of(alloc, facts) {
            Ok(memory) => Ok(Outbox {
                alloc,
                log,
                memory,
                down: false,
            }),
            Err(_) => Err(OpenOutbox::NoMemory(log)),
        }
    }

    /// Holds an output back until this condition, which is 0 or 1 at each assignment, is certain to be 1. Some bytes spell it. Takes time in proportion
    /// to it.
    ///
    /// - [`BoxError::Again`]: exactly where the output was held before.
    /// - [`BoxError::Failed`], [`BoxError::Down`], [`BoxError::Full`], [`BoxError::NoMemory`]: as they say.
    pub fn hold(&mut self, output: u32, when: &Poly<i64>) -> Result<(), BoxError>
        requires usable { IsUsable L.model self.old }
        requires spelled { (bytes : List ℕ) × SpellsPolyvalue when.now bytes }
        ensures hold { self.old.is_down ≡ false → Holds L.model self.old self.new output when.now result }
        ensures down { self.old.is_down ≡ true → (result ≡ Err Down) × (self.new ≡ self.old) }
        ensures usable { IsUsable L.model self.new }
    {
        if self.down {
            return Err(BoxError::Down);
        }
        if self.memory.is_held(output) {
            return Err(BoxError::Again);
        }
        let bytes = held_bytes(self.alloc, output, when)?;
        make_room(&mut self.log, &mut self.down, &bytes)?;
        let copy = self.memory.plan_hold(output, when)?;
        append(&mut self.log, &mut self.down, &bytes)?;
        self.memory.hold(output, copy);
        Ok(())
    }

    /// Learns the outcome of a transaction, whose site is below 16. Takes time in proportion to the outputs that wait for it, times the logarithm of
    /// those that may be ready.
    ///
    /// - [`BoxError::Known`]: exactly where an outcome of the transaction was learnt before, with that outcome.
    /// - [`BoxError::Failed`], [`BoxError::Down`], [`BoxError::Full`], [`BoxError::NoMemory`]: as they say.
    pub fn learn(&mut self, txn: TxnId, commits: bool) -> Result<(), BoxError>
        requires usable { IsUsable L.model self.old }
        requires site { txn.site.0 < MAX_SITES }
        ensures learn { self.old.is_down ≡ false → Learns L.model self.old self.new txn commits result }
        ensures down { self.old.is_down ≡ true → (result ≡ Err Down) × (self.new ≡ self.old) }
        ensures usable { IsUsable L.model self.new }
    {
        if self.down {
            return Err(BoxError::Down);
        }
        if let Some(known) = self.memory.outcome(txn) {
            return Err(BoxError::Known(known));
        }
        let bytes = learnt_bytes(self.alloc, txn, commits)?;
        make_room(&mut self.log, &mut self.down, &bytes)?;
        self.memory.plan_learn(txn, commits)?;
        append(&mut self.log, &mut self.down, &bytes)?;
        self.memory.learn(txn, commits);
        Ok(())
    }

    /// Releases the ready output that was held first: its release is in the log before it is answered. `None` comes exactly where none is ready.
    /// Takes the logarithm of the outputs that may be ready, amortized: each output is looked at once, and once more for each transaction that it
    /// waited for.
    ///
    /// - [`BoxError::Failed`]: the log holds the release, and then the output is never released, or it doesn't.
    /// - [`BoxError::Down`], [`BoxError::Full`], [`BoxError::NoMemory`]: as they say.
    pub fn take(&mut self) -> Result<Option<u32>, BoxError>
        requires usable { IsUsable L.model self.old }
        ensures take { self.old.is_down ≡ false → Takes L.model self.old self.new result }
        ensures down { self.old.is_down ≡ true → (result ≡ Err Down) × (self.new ≡ self.old) }
        ensures usable { IsUsable L.model self.new }
    {
        if self.down {
            return Err(BoxError::Down);
        }
        let Some(output) = self.memory.next() else {
            return Ok(None);
        };
        let bytes = taken_bytes(self.alloc, output)?;
        make_room(&mut self.log, &mut self.down, &bytes)?;
        self.memory.plan_take()?;
        append(&mut self.log, &mut self.down, &bytes)?;
        self.memory.take(output);
        Ok(Some(output))
    }

    /// The log, lent, so that who knows what it stands on can arm that and mend it. Whoever adds to it breaks the outbox: its calls that come after need
    /// the log as it was.
    pub fn log(&mut self) -> &mut L
        ensures* lends { sem 𝓛 (Lends (the_row L.row L.Log) L.row self.entry result (with_log self.old)) }
        ensures value { result.now ≡ self.old.log }
    {
        &mut self.log
    }

    /// The log, also of an outbox that is down; to be opened again, it mustn't be down itself. Takes constant time and no memory.
    pub fn close(self) -> L
        ensures { result ≡ self.log }
    {
        self.log
    }
}
