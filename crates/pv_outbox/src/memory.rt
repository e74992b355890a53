// What an outbox has in memory: what its records say, and where the outputs are found that may be ready.
ghost use Rattle.std.specs.Prelude.{◌≡◌, ◌<◌, false, None, IfOk, OnOk, MatchOption};
ghost use Rattle.pv_law_outbox.specs.Ready.{IsNext, NoneReady};
ghost use Rattle.pv_law_outbox.specs.State as law;
ghost use Rattle.pv_law_outbox.specs.State.{after, is_held, outcome_of};
ghost use Rattle.pv_outbox.specs.Covers.{Covers};

use crate::facts::Facts;
use crate::queue::Queue;
use pv_base::{NoMemory, TxnId};
use pv_tree::Poly;
use std::alloc::Global;
use std::marker::Model;

/// What an outbox has in memory. A change is planned before its record is written, which takes all the memory; then it is made, which takes none.
#[derive(Drop)]
pub(crate) struct Memory {
    /// Where its memory comes from.
    alloc: Global,
    /// What the records say.
    facts: Facts,
    /// Where the outputs are found that may be ready.
    queue: Queue,
}

impl Model for Memory {
    ghost use Rattle.pv_outbox.specs.Covers.{Covers};
    ghost use Rattle.pv_outbox.specs.MemoryView.{Memory};

    ghost Value = { Memory };

    ghost view = { λ s. record { facts = s.facts; queue = s.queue } };

    ghost invariant = { λ s. Covers s.facts.state s.queue };
}

impl Memory {
    // The memory of an outbox whose records say this. Takes time in proportion to what they say.
    pub(crate) fn of(alloc: Global, facts: Facts) -> Result<Memory, NoMemory>
        ensures { IfOk result (λ memory. memory.facts.state ≡ facts.state) }
    {
        let queue = queue_of(alloc, &facts)?;
        Ok(Memory {
            alloc,
            facts,
            queue,
        })
    }

    // Whether the output was held.
    pub(crate) fn is_held(&self, output: u32) -> bool
        ensures { result ≡ is_held self.now.facts.state output }
    {
        self.facts.is_held(output)
    }

    // The outcome of the transaction, if it was learnt.
    pub(crate) fn outcome(&self, txn: TxnId) -> Option<bool>
        ensures { result ≡ outcome_of self.now.facts.state txn }
    {
        self.facts.outcome(txn)
    }

    // The ready output that was held first, if one is ready.
    pub(crate) fn next(&mut self) -> Option<u32>
        ensures next { MatchOption result (NoneReady self.old.facts.state self.old.facts.state.held) (IsNext self.old.facts.state) }
        ensures same { self.new.facts ≡ self.old.facts }
    {
        // The count shows the proof that the conditions are canonical.
        let _ = self.facts.len();
        self.queue.next(&self.facts)
    }

    // Plans to hold an output, and answers its condition in memory of its own.
    pub(crate) fn plan_hold(&mut self, output: u32, when: &Poly<i64>) -> Result<Poly<i64>, NoMemory>
        requires { is_held self.old.facts.state output ≡ false }
        ensures same { self.new.facts.state ≡ self.old.facts.state }
        ensures copy { IfOk result (λ copy. copy ≡ when.now) }
        ensures room { OnOk result (0 < self.new.facts.room) }
        ensures covers { IfOk result (λ copy. Covers (after self.new.facts.state (law.held output copy)) self.new.queue) }
    {
        let copy = when.copy(self.alloc)?;
        self.facts.reserve()?;
        let place = self.facts.len();
        self.queue.add(&self.facts, place, when)?;
        Ok(copy)
    }

    // The output is held.
    pub(crate) fn hold(&mut self, output: u32, when: Poly<i64>)
        requires room { 0 < self.old.facts.room }
        requires covers { Covers (after self.old.facts.state (law.held output when)) self.old.queue }
        ensures { self.new.facts.state ≡ after self.old.facts.state (law.held output when) }
    {
        self.facts.hold(output, when);
    }

    // Plans to learn an outcome.
    pub(crate) fn plan_learn(&mut self, txn: TxnId, commits: bool) -> Result<(), NoMemory>
        requires { outcome_of self.old.facts.state txn ≡ None }
        ensures same { self.new.facts.state ≡ self.old.facts.state }
        ensures room { OnOk result (0 < self.new.facts.room) }
        ensures unknown { OnOk result (outcome_of self.new.facts.state txn ≡ None) }
        ensures covers { OnOk result (Covers (after self.new.facts.state (law.learnt txn commits)) self.new.queue) }
    {
        let _ = commits;
        self.facts.reserve()?;
        self.queue.wake(txn)
    }

    // The outcome is learnt.
    pub(crate) fn learn(&mut self, txn: TxnId, commits: bool)
        requires room { 0 < self.old.facts.room }
        requires unknown { outcome_of self.old.facts.state txn ≡ None }
        requires covers { Covers (after self.old.facts.state (law.learnt txn commits)) self.old.queue }
        ensures { self.new.facts.state ≡ after self.old.facts.state (law.learnt txn commits) }
    {
        self.facts.learn(txn, commits);
        self.queue.forget(txn);
    }

    // Plans to release an output.
    pub(crate) fn plan_take(&mut self) -> Result<(), NoMemory>
        ensures same { self.new.facts.state ≡ self.old.facts.state }
        ensures room { OnOk result (0 < self.new.facts.room) }
    {
        self.facts.reserve()
    }

    // The output is released.
    pub(crate) fn take(&mut self, output: u32)
        requires { 0 < self.old.facts.room }
        ensures { self.new.facts.state ≡ after self.old.facts.state (law.taken output) }
    {
        self.facts.take(output);
    }
}

// The queue of these outputs.
fn queue_of(alloc: Global, facts: &Facts) -> Result<Queue, NoMemory>
    ensures { IfOk result (Covers facts.now.state) }
{
    let mut queue = Queue::new(alloc);
    for place in 0..facts.len() {
        queue.add(facts, place, facts.condition(place))?;
    }
    Ok(queue)
}
