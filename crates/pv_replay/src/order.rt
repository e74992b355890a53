// A quick test of cases before they are put together: canonical ones are the leaves of a decision tree, from left to right.
ghost use Rattle.std.specs.Prelude.{◌≡◌, nat_le, length};
ghost use Rattle.std.specs.List.{list_all};
ghost use Rattle.pv_base.specs.declared.limits.TheConstants.{HELD_NAMES};
ghost use Rattle.pv_replay.specs.Order.{are_in_order, ascends, looks_canonical, stands_before};

use pv_base::{Case, HELD_NAMES, Literal};

// How many cases a polyvalue has at most: one for each assignment to the outcomes that it may name.
const MAX_CASES: usize = 1 << HELD_NAMES;

/// Whether the cases look like those of a polyvalue, the leaves of a decision tree from left to right: they are few, each condition's
/// transactions are few and ascend, and each case stands before the next one. Takes time in proportion to the cases, where these are many no more
/// than it takes to count them. So many cases are never put together, or their transactions sorted, only to be refused.
pub fn look_canonical(cases: &[Case<i64>]) -> bool
    ensures { result ≡ looks_canonical cases.now }
{
    if cases.len() > MAX_CASES {
        return false;
    }
    if !have_few_literals(cases) {
        return false;
    }
    if !all_ascend(cases) {
        return false;
    }
    are_in_order(cases)
}

// Whether each case has no more literals than a polyvalue may name transactions.
fn have_few_literals(cases: &[Case<i64>]) -> bool
    ensures { result ≡ list_all (λ case. nat_le (length case.when) HELD_NAMES) cases.now }
{
    cases
        .iter()
        .all(|case| case.when.len() <= HELD_NAMES as usize)
}

// Whether each condition's transactions ascend.
fn all_ascend(cases: &[Case<i64>]) -> bool
    ensures { result ≡ list_all (λ case. ascends case.when) cases.now }
{
    cases.iter().all(|case| ascends(&case.when))
}

// Whether the transactions of the literals ascend.
fn ascends(when: &[Literal]) -> bool
    ensures { result ≡ ascends when.now }
{
    match when {
        [] => true,
        [first, rest @ ..] => match rest {
            [] => true,
            [second, ..] => first.txn < second.txn && ascends(rest),
        },
    }
}

// Whether each case stands before the next one.
fn are_in_order(cases: &[Case<i64>]) -> bool
    ensures { result ≡ are_in_order cases.now }
{
    for place in 1..cases.len() {
        let left = &cases[place - 1];
        let right = &cases[place];
        if !stands_before(&left.when, &right.when) {
            return false;
        }
    }
    true
}

// Whether the conditions part at a transaction that doesn't commit in the first, and commits in the second.
fn stands_before(left: &[Literal], right: &[Literal]) -> bool
    ensures { result ≡ stands_before left.now right.now }
{
    match left {
        [] => false,
        [first, left @ ..] => match right {
            [] => false,
            [second, right @ ..] => {
                if first == second {
                    return stands_before(left, right);
                }
                first.txn == second.txn && !first.commits
            }
        },
    }
}
