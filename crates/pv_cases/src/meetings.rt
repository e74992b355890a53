// Which cases the assignments of some transactions meet.
ghost use Rattle.std.specs.Prelude.{◌≡◌, ◌++◌, ◌<◌, ◌^◌, length, slice_get, Some, All, IsTrue, IfOk, OnOk};
ghost use Rattle.pv_base.specs.Assignment.{AreAscending, assignments};
ghost use Rattle.pv_base.specs.Polyvalue.{AreNames};
ghost use Rattle.pv_cases.specs.Meetings.{meeting_of, meetings_of};
ghost use Rattle.pv_cases.specs.CaseSplits.{allows, places_with, meetings_among};

use pv_base::{Case, Literal, NoMemory, TxnId};
use std::alloc::Global;

/// The first two places of the cases that an assignment meets.
#[derive(Clone, Copy, Debug, PartialEq, Eq)]
pub struct Meeting {
    /// The place of the first case that is met.
    pub first: Option<u32>,
    /// The place of the next one.
    pub second: Option<u32>,
}

/// The meetings of every assignment of the transactions, which the cases name.
///
/// Cases are split by one transaction after another, so a case that doesn't ask for both outcomes of a transaction takes time
/// only at the assignments that meet it: in proportion to these, times the transactions and its literals. Besides, each
/// assignment takes some.
pub fn meetings<V>(
    alloc: Global,
    cases: &[Case<V>],
    txns: &[TxnId],
) -> Result<Vec<Meeting>, NoMemory>
    requires names { AreNames cases.now txns.now }
    requires few_cases { length cases.now < 2 ^ 32 }
    ensures { IfOk result (λ meetings. meetings.items ≡ meetings_of cases.now txns.now) }
{
    let mut places = Vec::new(alloc);
    for place in 0..cases.len() {
        places.push(place as u32)?;
    }
    let mut meetings = Vec::new(alloc);
    push_meetings(alloc, cases, &places, txns, &mut meetings)?;
    Ok(meetings)
}

// Appends the meetings of every assignment of the transactions, among the cases at these places and as far as their literals are
// on these transactions.
fn push_meetings<V>(
    alloc: Global,
    cases: &[Case<V>],
    places: &[u32],
    txns: &[TxnId],
    meetings: &mut Vec<Meeting>,
) -> Result<(), NoMemory>
    requires there { All (λ place. place < length cases.now) places.now }
    requires ascending { AreAscending txns.now }
    ensures { OnOk result (meetings.new.items ≡ meetings.old.items ++ meetings_among cases.now places.now txns.now) }
{
    let Some((txn, rest)) = txns.split_first() else {
        meetings.push(first_two(places))?;
        return Ok(());
    };
    let aborted = places_with(alloc, cases, places, *txn, false)?;
    push_meetings(alloc, cases, &aborted, rest, meetings)?;
    let committed = places_with(alloc, cases, places, *txn, true)?;
    push_meetings(alloc, cases, &committed, rest, meetings)?;
    Ok(())
}

// Those of the places at which the case allows this outcome of the transaction.
fn places_with<V>(
    alloc: Global,
    cases: &[Case<V>],
    places: &[u32],
    txn: TxnId,
    outcome: bool,
) -> Result<Vec<u32>, NoMemory>
    requires { All (λ place. place < length cases.now) places.now }
    ensures { IfOk result (λ left. left.items ≡ places_with cases.now txn outcome places.now) }
{
    let mut left = Vec::new(alloc);
    for place in places {
        let case = &cases[*place as usize];
        if allows(&case.when, txn, outcome) {
            left.push(*place)?;
        }
    }
    Ok(left)
}

// Whether no literal asks for the other outcome of the transaction.
fn allows(when: &[Literal], txn: TxnId, outcome: bool) -> bool
    ensures { result ≡ allows txn outcome when.now }
{
    when.iter()
        .all(|literal| literal.txn != txn || literal.commits == outcome)
}

// The first two of the places.
fn first_two(places: &[u32]) -> Meeting
    ensures { result ≡ meeting_of places.now }
{
    Meeting {
        first: places.first().copied(),
        second: places.get(1).copied(),
    }
}

/// The assignment of the transactions that stands at this place among all of them. Takes time in proportion to the
/// transactions.
pub fn assignment_at(alloc: Global, txns: &[TxnId], place: usize) -> Result<Vec<TxnId>, NoMemory>
    requires there { place < 2 ^ length txns.now }
    requires few { length txns.now < 32 }
    ensures { IfOk result (λ yes. slice_get (assignments txns.now) place ≡ Some yes.items) }
{
    let mut yes = Vec::new(alloc);
    let mut left = txns;
    let mut at = place;
    while let Some((txn, rest)) = left.split_first() {
        let half = 1 << rest.len();
        if half <= at {
            yes.push(*txn)?;
            at -= half;
        }
        left = rest;
    }
    Ok(yes)
}
