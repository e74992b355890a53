// Worked lists of cases, and that calls which want memory have their answer where there is some.
ghost use Rattle.std.specs.Prelude.{◌≡◌, ◌<◌, ◌^◌, true, length, map};
ghost use Rattle.std.specs.List.{sum};

use pv_base::{Case, CaseError, Literal, NoMemory, SiteId, TxnId};
use pv_cases::*;
use std::alloc::Global;
use std::process::Abort;
use std::test::Fail;

// The first transaction of a site.
fn first(site: u8) -> TxnId {
    TxnId {
        site: SiteId(site),
        epoch: 1,
        number: 0,
    }
}

fn commits(site: u8) -> Literal {
    Literal {
        txn: first(site),
        commits: true,
    }
}

fn aborts(site: u8) -> Literal {
    Literal {
        txn: first(site),
        commits: false,
    }
}

// The literal with the other outcome.
fn negated(literal: Literal) -> Literal {
    Literal {
        txn: literal.txn,
        commits: !literal.commits,
    }
}

fn case(alloc: Global, when: &[Literal], value: i64) -> Result<Case<i64>, NoMemory> {
    let when = Vec::from_slice(alloc, when)?;
    Ok(Case { when, value })
}

// Whether the cases and their literals are as few as joining them wants; in a test they are.
fn are_few(cases: &[Case<i64>]) -> bool
    ensures { result ≡ true → (length cases.now < 2 ^ 32) × (sum (map (λ case. length case.when) cases.now) < 2 ^ 32) }
{
    if cases.len() > 256 {
        return false;
    }
    let mut literals = 0;
    for case in cases {
        if case.when.len() > 256 {
            return false;
        }
        literals += case.when.len() as u32;
    }
    true
}

// The cases, each with these literals and this value.
fn case_list(alloc: Global, cases: &[(&[Literal], i64)]) -> Result<Vec<Case<i64>>, NoMemory> {
    let mut list = Vec::new(alloc);
    for (when, value) in cases {
        list.push(case(alloc, when, *value)?)?;
    }
    Ok(list)
}

// Asserts that these are the first transactions of the sites.
fn assert_firsts(rt: &impl Abort, txns: &[TxnId], sites: &[u8]) {
    assert_eq!(rt; txns.len(), sites.len());
    for (txn, site) in txns.iter().zip(sites) {
        assert!(rt; *txn == first(*site));
    }
}

#[test]
fn transactions_are_put_in_order(rt: HostRuntime) -> Result<(), Fail> {
    let mut txns = Vec::new(rt.alloc());
    for site in [2, 0, 2, 1, 0] {
        txns.push(first(site))?;
    }
    let txns = ordered(txns);
    assert_firsts(&rt, &txns, &[0, 1, 2]);
    Ok(())
}

#[test]
fn a_test_is_pushed_once(rt: HostRuntime) -> Result<(), Fail> {
    let alloc = rt.alloc();
    let leaves = case_list(
        alloc,
        &[
            (&[aborts(0), aborts(1)], 50),
            (&[aborts(0), commits(1)], 60),
            (&[commits(0), aborts(2)], 70),
            (&[commits(0), commits(2)], 80),
        ],
    )?;
    let mut txns = Vec::new(alloc);
    txns.push(first(3))?;
    push_names(&mut txns, &leaves)?;
    assert_firsts(&rt, &txns, &[3, 0, 1, 2]);
    Ok(())
}

#[test]
fn the_first_two_cases_that_meet_are_reported(rt: HostRuntime) -> Result<(), Fail> {
    let alloc = rt.alloc();
    let cases = case_list(alloc, &[(&[aborts(0)], 1), (&[commits(0)], 2), (&[], 3)])?;
    assert!(rt; are_few(&cases));
    let refused = table_of(alloc, &cases);
    assert!(rt; matches!(refused, Err(CaseError::NotDisjoint(0, 2))));
    Ok(())
}

// The assignment that is reported of cases that leave out the one which meets these literals.
fn missing_of(rt: &impl Abort, alloc: Global, left_out: [Literal; 3]) -> Result<Vec<TxnId>, Fail> {
    let [first, second, third] = left_out;
    let cases = case_list(
        alloc,
        &[
            (&[negated(first)], 1),
            (&[first, negated(second)], 2),
            (&[first, second, negated(third)], 3),
        ],
    )?;
    assert!(rt; are_few(&cases));
    let Err(CaseError::NotComplete(missing)) = table_of(alloc, &cases) else {
        rt.abort();
    };
    Ok(missing)
}

// The first transaction is the most significant, so these are the assignments of the numbers 0, 1, 5 and 7.
#[test]
fn the_assignment_that_meets_no_case_is_reported(rt: HostRuntime) -> Result<(), Fail> {
    let alloc = rt.alloc();
    let none = missing_of(&rt, alloc, [aborts(0), aborts(1), aborts(2)])?;
    assert_firsts(&rt, &none, &[]);
    let last = missing_of(&rt, alloc, [aborts(0), aborts(1), commits(2)])?;
    assert_firsts(&rt, &last, &[2]);
    let two = missing_of(&rt, alloc, [commits(0), aborts(1), commits(2)])?;
    assert_firsts(&rt, &two, &[0, 2]);
    let all = missing_of(&rt, alloc, [commits(0), commits(1), commits(2)])?;
    assert_firsts(&rt, &all, &[0, 1, 2]);
    Ok(())
}

#[test]
fn cases_have_a_table(rt: HostRuntime) -> Result<(), Fail> {
    let alloc = rt.alloc();
    let cases = case_list(alloc, &[(&[commits(1)], 60), (&[aborts(1)], 50)])?;
    assert!(rt; are_few(&cases));
    let table = table_of(alloc, &cases)?;
    assert_firsts(&rt, &table.txns, &[1]);
    assert!(rt; table.values.as_slice() == [50i64, 60].as_slice());
    let none: [Case<i64>; 0] = [];
    let refused = table_of(alloc, &none);
    assert!(rt; matches!(refused, Err(CaseError::NotComplete(_))));
    Ok(())
}

#[test]
fn both_lists_name_each_transaction_once(rt: HostRuntime) -> Result<(), Fail> {
    let alloc = rt.alloc();
    let cases = case_list(alloc, &[(&[aborts(0)], 1), (&[commits(0)], 2)])?;
    let others = case_list(alloc, &[(&[aborts(1), aborts(0)], 1)])?;
    let names = names_of(alloc, &cases)?;
    assert_firsts(&rt, &names, &[0]);
    assert!(rt; first_difference(&cases, &others) == Some(0));
    assert!(rt; first_difference(&cases, &cases).is_none());
    Ok(())
}
