// Where the outputs are found that may be ready.
ghost use Rattle.std.specs.Prelude.{◌≡◌, ℕ, true, false, [], All, IsTrue, MatchOption, OnOk};
ghost use Rattle.std.specs.List.{Contains};
ghost use Rattle.pv_base.specs.Assignment.{is_same_txn};
ghost use Rattle.pv_base.specs.Polyvalue.{names};
ghost use Rattle.pv_base.specs.declared.txn.TxnId.{TxnId};
ghost use Rattle.pv_outbox.specs.Covers.{Covers, HasAll, WaitsIfUnknown, waits_for};
ghost use Rattle.pv_outbox.specs.Next.{IsFirst, NoneMayGo};

use crate::candidates::Candidates;
use crate::facts::Facts;
use crate::waiting::Waiting;
use pv_base::{NoMemory, TxnId};
use pv_tree::Poly;
use std::alloc::Global;
use std::marker::Model;

/// The places of the outputs that may be ready, and of those that wait for transactions. A place that is released, or still uncertain, may be
/// among the candidates; it is found out when it comes first, and then dropped. So the next output is found without a look at those that
/// only wait.
#[derive(Drop)]
pub(crate) struct Queue {
    /// Where its memory comes from.
    alloc: Global,
    /// The places of those that may be ready.
    candidates: Candidates,
    /// By transaction, the places of those that wait for it.
    waiting: Waiting,
}

impl Model for Queue {
    ghost use Rattle.pv_outbox.specs.Covers.{Queued};

    ghost Value = { Queued };

    ghost view = { λ s. record { candidates = s.candidates; waiting = s.waiting } };
}

impl Queue {
    // There is none.
    pub(crate) fn new(alloc: Global) -> Queue
        ensures candidates { result.candidates ≡ [] }
        ensures waiting { result.waiting ≡ [] }
    {
        Queue {
            alloc,
            candidates: Candidates::new(alloc),
            waiting: Waiting::new(alloc),
        }
    }

    // The output at this place may be ready, or waits for the transactions that its condition names and whose outcome isn't known.
    pub(crate) fn add(
        &mut self,
        facts: &Facts,
        place: usize,
        when: &Poly<i64>,
    ) -> Result<(), NoMemory>
        ensures more { HasAll self.old self.new }
        ensures candidate { OnOk result (Contains self.new.candidates place) }
        ensures waits { OnOk result ((txn : TxnId) → IsTrue (names when.now txn) → WaitsIfUnknown facts.now.state self.new place txn) }
    {
        let txns = when.names(self.alloc)?;
        self.wait_for_all(facts, &txns, place)?;
        self.candidates.put(place)
    }

    // The output at this place waits for those of these transactions whose outcome isn't known.
    fn wait_for_all(&mut self, facts: &Facts, txns: &[TxnId], place: usize) -> Result<(), NoMemory>
        ensures more { HasAll self.old self.new }
        ensures waits { OnOk result (All (WaitsIfUnknown facts.now.state self.new place) txns.now) }
    {
        for txn in txns {
            self.wait(facts, *txn, place)?;
        }
        Ok(())
    }

    // The output at this place waits for the transaction, unless its outcome is known.
    fn wait(&mut self, facts: &Facts, txn: TxnId, place: usize) -> Result<(), NoMemory>
        ensures more { HasAll self.old self.new }
        ensures waits { OnOk result (WaitsIfUnknown facts.now.state self.new place txn) }
    {
        if facts.outcome(txn).is_none() {
            self.waiting.add(txn, place)?;
        }
        Ok(())
    }

    // Each output that waits for the transaction may be ready.
    pub(crate) fn wake(&mut self, txn: TxnId) -> Result<(), NoMemory>
        ensures more { HasAll self.old self.new }
        ensures woken { OnOk result ((place : ℕ) → waits_for self.old.waiting txn place ≡ true → Contains self.new.candidates place) }
    {
        self.candidates.put_all(self.waiting.places(txn))
    }

    // None waits for the transaction any more.
    pub(crate) fn forget(&mut self, txn: TxnId)
        ensures candidates { self.new.candidates ≡ self.old.candidates }
        ensures waiting { (other : TxnId) (place : ℕ) → is_same_txn other txn ≡ false →
            waits_for self.new.waiting other place ≡ waits_for self.old.waiting other place }
    {
        self.waiting.remove(txn);
    }

    // The first output that may be released, if there is one. Candidates that may not are dropped.
    pub(crate) fn next(&mut self, facts: &Facts) -> Option<u32>
        requires { Covers facts.now.state self.old }
        ensures found { MatchOption result (NoneMayGo facts.now.state) (IsFirst facts.now.state) }
        ensures covers { Covers facts.now.state self.new }
    {
        while let Some(place) = self.candidates.first() {
            if let Some(output) = facts.ready_at(place) {
                return Some(output);
            }
            self.candidates.drop_first();
        }
        None
    }
}
