// A worked program over a value that depends on an outcome.
use pv_ast::{Decline, Program, Reply, Row};
use pv_base::{Case, Catalog, ItemId, Literal, MIN_JOURNAL, NameError, SiteId, TxnId};
use pv_parse::parse;
use pv_split::*;
use pv_tree::Poly;
use std::alloc::Global;
use std::process::Abort;
use std::test::Fail;

const A: ItemId = ItemId(0);

const C: ItemId = ItemId(1);

const FIRST: TxnId = TxnId {
    site: SiteId(0),
    epoch: 1,
    number: 0,
};

// the program of a text over a and c
fn program(rt: &(impl Abort + AllocGlobal), text: &[u8]) -> Program {
    let mut catalog = Catalog::new(rt.alloc(), 1, MIN_JOURNAL);
    let a = catalog.add(b"a", SiteId(0), 0);
    let c = catalog.add(b"c", SiteId(0), 0);
    assert!(rt; a == Ok(A) && c == Ok(C));
    match parse(rt.alloc(), text, &catalog) {
        Ok(program) => program,
        Err(error) => panic!(rt; "{error}"),
    }
}

// the old value where the first transaction doesn't commit, and the new one where it does
fn either(alloc: Global, old: i64, new: i64) -> Result<Poly<i64>, NameError> {
    let old = Poly::sure(alloc, old)?;
    let new = Poly::sure(alloc, new)?;
    Poly::choose(alloc, FIRST, &new, &old)
}

// what the program does over these values of a and c
fn over(
    rt: &(impl Abort + AllocGlobal),
    program: &Program,
    a: Poly<i64>,
    c: Poly<i64>,
) -> Result<Joined, SplitError> {
    let rows = [Row { item: A, value: 0 }, Row { item: C, value: 0 }];
    assert!(rt; program.has_items(&rows));
    let reads = [Read { item: A, value: a }, Read { item: C, value: c }];
    split(rt.alloc(), program, &reads)
}

// that the case is this value where that is the outcome of the first transaction
fn assert_under<V: Copy + Eq>(rt: &impl Abort, case: &Case<V>, commits: bool, value: V) {
    let [literal] = case.when.as_slice() else {
        panic!(rt; "not one literal");
    };
    let wanted = Literal {
        txn: FIRST,
        commits,
    };
    assert_eq!(rt; *literal, wanted);
    assert!(rt; case.value == value);
}

// that there are two cases: this value where the first transaction doesn't commit, and that one where it does
fn assert_either<V: Copy + Eq>(rt: &impl Abort, cases: &[Case<V>], old: V, new: V) {
    let [first, second] = cases else {
        panic!(rt; "not two cases");
    };
    assert_under(rt, first, false, old);
    assert_under(rt, second, true, new);
}

#[test]
fn a_declined_alternative_keeps_its_value(rt: HostRuntime) -> Result<(), Fail> {
    let program = program(&rt, b"a := a / c");
    let a = Poly::sure(rt.alloc(), 10)?;
    let joined = over(&rt, &program, a, either(rt.alloc(), 0, 2)?)?;
    let [write] = joined.writes.as_slice() else {
        panic!(rt; "not one write");
    };
    assert_eq!(rt; write.item, A);
    assert_either(&rt, write.value.cases(), 10, 5);
    let declined = Reply::Declined(Decline::ZeroDivisor);
    assert_either(&rt, joined.reply.cases(), declined, Reply::Nothing);
    Ok(())
}
