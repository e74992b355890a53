// Sums of values that depend on outcomes.
ghost use Rattle.std.specs.Prelude.{◌≡◌, ◌≢◌, ◌<◌, ◌≤◌, ◌+◌, ◌*◌, ◌^◌, ◌⊎◌, ℕ, pos, List, Err, All, IsTrue, map, length, IfOk, IfErr, OnOk};
ghost use Rattle.std.specs.List.{AllPairs, Contains, flat_map};
ghost use Rattle.std.specs.Ordering.{int_eq};
ghost use Rattle.pv_base.specs.Answer.{Answers};
ghost use Rattle.pv_base.specs.Assignment.{AreAscending, assignments};
ghost use Rattle.pv_base.specs.Polyvalue.{AreNames, IsPolyvalue};
ghost use Rattle.pv_base.specs.declared.limits.TheConstants.{HELD_NAMES, MAX_ITEMS};
ghost use Rattle.pv_base.specs.declared.txn.TxnId.{TxnId};
ghost use Rattle.pv_cases.specs.NameLimits.{NameTooMany};
ghost use Rattle.pv_model.specs.Alternatives.{number_at};
ghost use Rattle.pv_model.specs.PossibleAnswers.{sum_at, sums, without_repeats};
ghost use Rattle.pv_query.specs.AllSums.{count_of, together, AreAllSums};
ghost use Rattle.pv_query.specs.Sums.{added, totals, IsWithin, AreWithin};

use crate::repeats::Distinct;
use pv_base::{HELD_NAMES, MAX_ITEMS, NoMemory, TxnId};
use pv_cases::{ordered, push_names};
use pv_tree::Poly;
use std::alloc::Global;
use thiserror::Error;

/// Why values can't be summed.
#[derive(Clone, Copy, Debug, PartialEq, Eq, Error)]
pub enum SumError {
    /// The values name this many outcomes together, more than [`HELD_NAMES`].
    #[error("the values name {0} outcomes")]
    OutcomeLimit(u32),
    /// There was no memory.
    #[error("no memory")]
    NoMemory,
}

impl From<NoMemory> for SumError {
    ghost use Rattle.std.specs.Prelude.{◌≡◌};
    ghost use Rattle.pv_query.specs.declared.adding.SumError.TheVariants as error;

    ghost from_gives = { λ _ e. e ≡ error.NoMemory };

    fn from(_: NoMemory) -> Self {
        SumError::NoMemory
    }
}

/// The sums of the values at every assignment of the outcomes that they name together, each once: "doesn't commit" before "commits", and
/// the least transaction the most significant.
///
/// There are at most as many values as a catalog has items, [`MAX_ITEMS`]. `OutcomeLimit` has the number of outcomes that the values
/// name together, where these are more than [`HELD_NAMES`]. Takes time in proportion to the literals; to the
/// tests of the values' decision trees, times the logarithm of their number; for a value without outcomes, one addition; and for another
/// one, to the assignments, times its names.
pub fn sums(alloc: Global, values: &[Poly<i64>]) -> Result<Vec<i128>, SumError>
    requires { length values.now ≤ MAX_ITEMS }
    ensures answer { Answers (AreAllSums HELD_NAMES values.now) (NameTooMany HELD_NAMES (together values.now)) (λ found. found.items) count_of result }

    ensures distinct { IfOk result (λ found. AllPairs (λ sum later. sum ≢ later) found.items) }

    // They are the sums at all assignments: no sum is left out, and each is the sum at some assignment.
    ensures every { (assignment : List TxnId) → IfOk result (λ found. Contains found.items (sum_at values.now assignment)) }
    ensures each { IfOk result (λ found. All (λ sum. (assignment : List TxnId) × (sum_at values.now assignment ≡ sum)) found.items) }
{
    let txns = outcomes(alloc, values)?;
    let count = txns.len() as u32;
    if count > HELD_NAMES {
        return Err(SumError::OutcomeLimit(count));
    }
    Ok(sums_over(alloc, values, &txns)?)
}

// The outcomes that the values name together, ascending.
fn outcomes(alloc: Global, values: &[Poly<i64>]) -> Result<Vec<TxnId>, NoMemory>
    ensures names { IfOk result (λ txns. AreNames (together values.now) txns.items) }
    ensures few { IfOk result (λ txns. length txns.items ≤ HELD_NAMES * length values.now) }
    ensures polyvalues { OnOk result (All (IsPolyvalue HELD_NAMES) values.now) }
{
    let mut txns = Vec::new(alloc);
    for value in values {
        push_names(&mut txns, value.cases())?;
    }
    Ok(ordered(txns))
}

// The sums at every assignment of these few transactions, each once.
fn sums_over(alloc: Global, values: &[Poly<i64>], txns: &[TxnId]) -> Result<Vec<i128>, NoMemory>
    requires ascending { AreAscending txns.now }
    requires few_txns { length txns.now ≤ HELD_NAMES }
    requires few_values { length values.now ≤ MAX_ITEMS }
    ensures { IfOk result (λ found. found.items ≡ sums values.now txns.now) }
{
    let mut sums = RunningSums::zeros(alloc, txns)?;
    for value in values {
        sums.add(alloc, value, txns)?;
    }
    sums.distinct(alloc)
}

// Sums under way. At each assignment the whole sum is that of the sure values and that of the others.
#[derive(Drop)]
struct RunningSums {
    // The sum of the values that name no outcome.
    sure: i128,
    // The sums of the other values, at each assignment.
    at_each: Vec<i128>,
}

impl RunningSums {
    // The sums of no values at every assignment of these transactions.
    fn zeros(alloc: Global, txns: &[TxnId]) -> Result<RunningSums, NoMemory>
        requires few { length txns.now ≤ HELD_NAMES }
        ensures zeros { IfOk result (λ sums. totals sums ≡ map (λ _. pos 0) (assignments txns.now)) }
        ensures within { IfOk result (AreWithin 0) }
    {
        Ok(RunningSums {
            sure: 0,
            at_each: vec![in alloc; 0; 1 << txns.len()]?,
        })
    }

    // Adds the value at each assignment of these transactions.
    fn add(&mut self, alloc: Global, value: &Poly<i64>, txns: &[TxnId]) -> Result<(), NoMemory>
        requires ascending { AreAscending txns.now }
        requires few { length txns.now ≤ HELD_NAMES }
        requires room { AreWithin (2 ^ 100) self.old }
        requires places { length self.old.at_each.items ≡ length (assignments txns.now) }
        ensures added { OnOk result (totals self.new ≡ added (totals self.old) (map (number_at value.now) (assignments txns.now))) }
        ensures within { (bound : ℕ) → AreWithin bound self.old → OnOk result (AreWithin (bound + 2 ^ 63) self.new) }
    {
        match value.cases() {
            [case] => self.sure += i128::from(case.value),
            _ => {
                let numbers = value.table(alloc, txns)?;
                add_each(&mut self.at_each, &numbers);
            }
        }
        Ok(())
    }

    // The whole sums, each once.
    fn distinct(&self, alloc: Global) -> Result<Vec<i128>, NoMemory>
        requires room { AreWithin (2 ^ 100) self.now }
        ensures { IfOk result (λ found. found.items ≡ without_repeats int_eq (totals self.now)) }
    {
        let mut found = Distinct::new(alloc);
        for sum in &self.at_each {
            found.push(self.sure + *sum)?;
        }
        found.list()
    }
}

// Adds each number to the sum at its place.
fn add_each(sums: &mut [i128], numbers: &[i64])
    requires places { length sums.old ≡ length numbers.now }
    requires room { All (IsWithin (2 ^ 100)) sums.old }
    ensures added { sums.new ≡ added sums.old numbers.now }
    ensures within { (bound : ℕ) → All (IsWithin bound) sums.old → All (IsWithin (bound + 2 ^ 63)) sums.new }
{
    for (place, number) in numbers.iter().enumerate() {
        sums[place] += i128::from(*number);
    }
}
