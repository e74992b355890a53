// Cases that are a choice between two values by one transaction's outcome.
ghost use Rattle.std.specs.Prelude.{◌≡◌, ◌≢◌, ◌∷◌, [], false, true, IfOk, IfSome};
ghost use Rattle.pv_base.specs.declared.limits.TheConstants.{HELD_NAMES};
ghost use Rattle.pv_cases.specs.JoinedCases.{IsKept};

use pv_base::{Case, Literal, NameError, NoMemory, TxnId};
use pv_tree::Poly;
use std::alloc::Global;

/// A choice between two values.
#[derive(Clone, Copy)]
pub(crate) struct Choice {
    /// The transaction.
    txn: TxnId,
    /// The value where it doesn't commit.
    before: i64,
    /// The value where it commits.
    after: i64,
}

/// The choice that the cases are, where they are one and its values differ.
pub(crate) fn choice_of(cases: &[Case<i64>]) -> Option<Choice>
    ensures { IfSome result (λ choice. (choice.before ≢ choice.after) × (cases.now ≡
        record { when = record { txn = choice.txn; commits = false } ∷ []; value = choice.before } ∷
        record { when = record { txn = choice.txn; commits = true } ∷ []; value = choice.after } ∷ [])) }
{
    let [aborted, committed] = cases else {
        return None;
    };
    let txn = txn_of(&aborted.when, false)?;
    let other = txn_of(&committed.when, true)?;
    let before = aborted.value;
    let after = committed.value;
    if txn != other || before == after {
        return None;
    }
    Some(Choice { txn, before, after })
}

// The transaction of the only literal, where that asks for this outcome.
fn txn_of(when: &[Literal], commits: bool) -> Option<TxnId>
    ensures { IfSome result (λ txn. when.now ≡ record { txn = txn; commits = commits } ∷ []) }
{
    match when {
        [literal] if literal.commits == commits => Some(literal.txn),
        _ => None,
    }
}

/// The polyvalue of a choice whose values differ.
pub(crate) fn chosen(alloc: Global, choice: Choice) -> Result<Poly<i64>, NoMemory>
    requires { choice.before ≢ choice.after }
    ensures { IfOk result (IsKept HELD_NAMES (
        record { when = record { txn = choice.txn; commits = false } ∷ []; value = choice.before } ∷
        record { when = record { txn = choice.txn; commits = true } ∷ []; value = choice.after } ∷ [])) }
{
    let before = Poly::sure(alloc, choice.before)?;
    let after = Poly::sure(alloc, choice.after)?;
    match Poly::choose(alloc, choice.txn, &after, &before) {
        Ok(poly) => Ok(poly),
        Err(NameError::TooManyOutcomes(_)) => unreachable!(),
        Err(NameError::NoMemory) => Err(NoMemory),
    }
}
