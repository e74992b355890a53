// What the records of an outbox say.
ghost use Rattle.std.specs.Prelude.{◌≡◌, ◌<◌, ◌++◌, ◌∷◌, [], false, nat_eq, length, slice_get, Some, is_some, All, MatchOption, OnOk, IfSome};
ghost use Rattle.std.specs.List.{list_any};
ghost use Rattle.std.specs.Map.{lookup};
ghost use Rattle.indexmap.specs.IndexMap.{spare};
ghost use Rattle.pv_base.specs.Polyvalue.{IsCanonical};
ghost use Rattle.pv_law_outbox.specs.Certain.{is_certain, is_excluded};
ghost use Rattle.pv_law_outbox.specs.State as law;
ghost use Rattle.pv_law_outbox.specs.State.{Held, after, is_held, outcome_of, is_taken, nothing};
ghost use Rattle.pv_outbox.specs.Covers.{MayGo};
ghost use Rattle.pv_outbox.specs.Values.{record_of};

use crate::record::Record;
use indexmap::{IndexMap, IndexSet};
use pv_base::{Case, Literal, NoMemory, TxnId};
use pv_tree::Poly;
use std::alloc::Global;
use std::marker::Model;

/// What the records of an outbox say.
#[derive(Drop)]
pub(crate) struct Facts {
    /// The outputs that were held, in that order, with their conditions. An output's place is its index here.
    held: IndexMap<u32, Poly<i64>>,
    /// The outcomes that were learnt.
    outcomes: IndexMap<TxnId, bool>,
    /// The outputs that are released. One may be that was never held.
    taken: IndexSet<u32>,
}

impl Model for Facts {
    ghost use Rattle.std.specs.Prelude.{min, All};
    ghost use Rattle.indexmap.specs.IndexMap.{spare as room_in};
    ghost use Rattle.indexmap.specs.IndexSet.{spare as room_for};
    ghost use Rattle.pv_base.specs.Polyvalue.{IsCanonical};
    ghost use Rattle.pv_law_outbox.specs.State.{Held};
    ghost use Rattle.pv_outbox.specs.MemoryView.{Facts};

    ghost Value = { Facts };

    ghost view = { λ s. record {
      state = record { held = s.held.entries; outcomes = s.outcomes.entries; taken = s.taken.keys };
      room = min (room_in s.held) (min (room_in s.outcomes) (room_for s.taken));
    } };

    ghost invariant = { λ s. All (λ (entry : Held). IsCanonical entry.1) s.held.entries };
}

impl Facts {
    // No record says anything.
    pub(crate) fn new(alloc: Global) -> Facts
        ensures { result.state ≡ nothing }
    {
        Facts {
            held: IndexMap::new(alloc),
            outcomes: IndexMap::new(alloc),
            taken: IndexSet::new(alloc),
        }
    }

    // How many outputs were held. Their conditions are canonical.
    pub(crate) fn len(&self) -> usize
        ensures count { result ≡ length self.now.state.held }
        ensures canonical { All (λ (entry : Held). IsCanonical entry.1) self.now.state.held }
    {
        self.held.len()
    }

    // Whether the output was held.
    pub(crate) fn is_held(&self, output: u32) -> bool
        ensures { result ≡ is_held self.now.state output }
    {
        self.held.contains_key(&output)
    }

    // The outcome of the transaction, if it was learnt.
    pub(crate) fn outcome(&self, txn: TxnId) -> Option<bool>
        ensures { result ≡ outcome_of self.now.state txn }
    {
        self.outcomes.get(&txn).copied()
    }

    // Whether the outcome of the transaction was learnt.
    fn is_known(&self, txn: TxnId) -> bool
        ensures { result ≡ is_some (outcome_of self.now.state txn) }
    {
        self.outcomes.contains_key(&txn)
    }

    // Whether the output is released.
    pub(crate) fn is_taken(&self, output: u32) -> bool
        ensures { result ≡ is_taken self.now.state output }
    {
        self.taken.contains(&output)
    }

    // The condition of the output at this place, which was held.
    pub(crate) fn condition(&self, place: usize) -> &Poly<i64>
        requires { place < length self.now.state.held }
        ensures { IfSome (slice_get self.now.state.held place) (λ (entry : Held). entry.1 ≡ result.now) }
    {
        let (_, when) = self.held.get_index(place).unwrap();
        when
    }

    // The output at this place, if there is one and it may be released.
    pub(crate) fn ready_at(&self, place: usize) -> Option<u32>
        ensures { MatchOption result
            ((entry : Held) → slice_get self.now.state.held place ≡ Some entry → MayGo self.now.state entry → ⊥)
            (λ output. (entry : Held) × (slice_get self.now.state.held place ≡ Some entry) × (entry.0 ≡ output) × MayGo self.now.state entry) }
    {
        let (output, when) = self.held.get_index(place)?;
        if self.is_taken(*output) || !self.is_certain(when.cases()) {
            return None;
        }
        Some(*output)
    }

    // Whether each of the cases that may still be met has the value 1.
    fn is_certain(&self, cases: &[Case<i64>]) -> bool
        ensures { result ≡ is_certain self.now.state.outcomes cases.now }
    {
        cases
            .iter()
            .all(|case| self.is_excluded(&case.when) || case.value == 1)
    }

    // Whether the transaction of some literal is known to have the other outcome.
    fn is_excluded(&self, when: &[Literal]) -> bool
        ensures { result ≡ list_any (is_excluded self.now.state.outcomes) when.now }
    {
        when.iter().any(|literal| {
            self.outcome(literal.txn)
                .is_some_and(|commits| commits != literal.commits)
        })
    }

    // Makes room for one more record.
    pub(crate) fn reserve(&mut self) -> Result<(), NoMemory>
        ensures same { self.new.state ≡ self.old.state }
        ensures room { OnOk result (0 < self.new.room) }
    {
        self.held.reserve(1)?;
        self.outcomes.reserve(1)?;
        self.taken.reserve(1)?;
        Ok(())
    }

    // Takes note of a record.
    pub(crate) fn note(&mut self, entry: Record)
        requires { 0 < self.old.room }
        ensures { self.new.state ≡ after self.old.state (record_of entry) }
    {
        match entry {
            Record::Held { output, when } => self.hold(output, when),
            Record::Learnt { txn, commits } => self.learn(txn, commits),
            Record::Taken { output } => self.take(output),
        }
    }

    // Takes note that the output is held, unless it was before.
    pub(crate) fn hold(&mut self, output: u32, when: Poly<i64>)
        requires { 0 < self.old.room }
        ensures { self.new.state ≡ after self.old.state (law.held output when) }
    {
        if !self.is_held(output) {
            // The cases show the proof that they are canonical.
            let _ = when.cases();
            put(&mut self.held, output, when);
        }
    }

    // Takes note of the transaction's outcome, unless one was learnt before.
    pub(crate) fn learn(&mut self, txn: TxnId, commits: bool)
        requires { 0 < self.old.room }
        ensures { self.new.state ≡ after self.old.state (law.learnt txn commits) }
    {
        if !self.is_known(txn) {
            let _ = self.outcomes.insert(txn, commits);
        }
    }

    // Takes note that the output is released.
    pub(crate) fn take(&mut self, output: u32)
        requires { 0 < self.old.room }
        ensures { self.new.state ≡ after self.old.state (law.taken output) }
    {
        let _ = self.taken.insert(output);
    }
}

// Puts an output that isn't there, with its condition, behind the others.
fn put(held: &mut IndexMap<u32, Poly<i64>>, output: u32, when: Poly<i64>)
    requires room { 0 < spare held.old }
    requires absent { is_some (lookup (nat_eq output) held.old.entries) ≡ false }
    ensures { held.new.entries ≡ held.old.entries ++ (output, when) ∷ [] }
{
    let _ = held.insert(output, when);
}
