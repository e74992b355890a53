// Values that name nothing, and choices between two of them by one transaction: what most polyvalues are, so that nothing is made to work on them.
ghost use Rattle.std.specs.Prelude.{◌≡◌, ◌≢◌, false, true, [], ◌∷◌, IfOk, IfSome};
ghost use Rattle.pv_base.specs.Polyvalue.{IsSettled};

use pv_base::{Case, Exact, Literal, NoMemory, TxnId};
use std::alloc::Global;

/// The value of cases that are only one, which is always met.
pub fn sure_value<V: Copy>(cases: &[Case<V>]) -> Option<V>
    ensures { IfSome result (λ value. cases.now ≡ record { when = []; value = value } ∷ []) }
{
    match cases {
        [case] if case.when.is_empty() => Some(case.value),
        _ => None,
    }
}

/// The two values, where both are always met and they differ.
pub fn two_values<V: Exact>(old: &[Case<V>], new: &[Case<V>]) -> Option<(V, V)>
    ensures { IfSome result (λ both. (old.now ≡ record { when = []; value = both.0 } ∷ []) ×
        ((new.now ≡ record { when = []; value = both.1 } ∷ []) × (both.0 ≢ both.1))) }
{
    let before = sure_value(old)?;
    let after = sure_value(new)?;
    if before == after {
        return None;
    }
    Some((before, after))
}

/// The value of cases once these outcomes are known, where it is seen at once: one case is always met, or there is one outcome and the cases are a
/// choice between two values by it.
pub fn settled_value<V: Copy>(cases: &[Case<V>], literals: &[Literal]) -> Option<V>
    ensures { IfSome result (λ value. IsSettled literals.now cases.now (record { when = []; value = value } ∷ [])) }
{
    if let Some(value) = sure_value(cases) {
        return Some(value);
    }
    let literal = only_literal(literals)?;
    let values = values_by(cases, literal.txn)?;
    Some(if literal.commits { values.1 } else { values.0 })
}

// The literal, if it is the only one.
fn only_literal(literals: &[Literal]) -> Option<Literal>
    ensures { IfSome result (λ literal. literals.now ≡ literal ∷ []) }
{
    match literals {
        [literal] => Some(*literal),
        _ => None,
    }
}

// The two values of cases that are a choice between them by this transaction.
fn values_by<V: Copy>(cases: &[Case<V>], txn: TxnId) -> Option<(V, V)>
    ensures { IfSome result (λ both. cases.now ≡ record { when = record { txn = txn; commits = false } ∷ []; value = both.0 }
        ∷ record { when = record { txn = txn; commits = true } ∷ []; value = both.1 } ∷ []) }
{
    match cases {
        [before, after] if is_only(&before.when, txn, false) && is_only(&after.when, txn, true) => {
            Some((before.value, after.value))
        }
        _ => None,
    }
}

// Whether the condition asks for this outcome of the transaction, and for no other.
fn is_only(when: &[Literal], txn: TxnId, commits: bool) -> bool
    ensures { result ≡ true → when.now ≡ record { txn = txn; commits = commits } ∷ [] }
{
    match when {
        [literal] => literal.txn == txn && literal.commits == commits,
        _ => false,
    }
}

/// The value under this outcome of the transaction.
pub fn case_under<V: Copy>(
    alloc: Global,
    txn: TxnId,
    commits: bool,
    value: V,
) -> Result<Case<V>, NoMemory>
    ensures { IfOk result (λ case. case ≡ record { when = record { txn = txn; commits = commits } ∷ []; value = value }) }
{
    let when = Vec::from_slice(alloc, &[Literal { txn, commits }])?;
    Ok(Case { when, value })
}
