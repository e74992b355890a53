// A worked store of the first site with the items a and b, declared as 1 and 2: what it shows, and what is planned and applied. Each call that
// wants memory has its answer where there is some.
ghost use Rattle.std.specs.Prelude.{◌≡◌, [], IfOk, IsTrue};
ghost use Rattle.pv_protocol.specs.Lock.{is_home};

use pv_base::{
    Case, Catalog, CatalogError, ItemId, Literal, MAX_JOURNAL, NameError, NoMemory, SiteId, TxnId,
};
use pv_replay::{Past, Record};
use pv_store::*;
use pv_tree::{Poly, Read};
use std::alloc::Global;
use std::process::Abort;
use std::test::Fail;

const A: ItemId = ItemId(0);

const B: ItemId = ItemId(1);

// A transaction of the store's site, and one of another.
const HERE: TxnId = TxnId {
    site: SiteId(0),
    epoch: 1,
    number: 0,
};

const THERE: TxnId = TxnId {
    site: SiteId(1),
    epoch: 1,
    number: 0,
};

// the transaction of the store's site that has this number
fn txn(number: u32) -> TxnId {
    TxnId {
        site: SiteId(0),
        epoch: 1,
        number,
    }
}

// the catalog of a and b
fn catalog(alloc: Global) -> Result<Catalog, CatalogError>
    ensures a { IfOk result (λ catalog. IsTrue (is_home catalog 0 0)) }
    ensures b { IfOk result (λ catalog. IsTrue (is_home catalog 0 1)) }
{
    let mut catalog = Catalog::new(alloc, 2, MAX_JOURNAL);
    catalog.add(b"a", SiteId(0), 1)?;
    catalog.add(b"b", SiteId(0), 2)?;
    Ok(catalog)
}

// the item with this value
fn sure(alloc: Global, item: ItemId, value: i64) -> Result<Vec<Read>, NoMemory> {
    let mut reads = Vec::new(alloc);
    let value = Poly::sure(alloc, value)?;
    reads.push(Read { item, value })?;
    Ok(reads)
}

// the records of so many transactions, from the first one, that assign a the values from 5
fn promises(alloc: Global, count: u32) -> Result<Past, NoMemory> {
    let mut records = Vec::new(alloc);
    for number in 0..count {
        let writes = sure(alloc, A, 5 + i64::from(number))?;
        records.push(Record::Prepared {
            txn: txn(number),
            writes,
        })?;
    }
    Ok(Past { epoch: 1, records })
}

// the store without records
fn empty(alloc: Global) -> Result<Store, Fail>
    ensures records { IfOk result (λ store. store.records ≡ []) }
    ensures a { IfOk result (λ store. IsTrue (is_home store.catalog store.site 0)) }
    ensures b { IfOk result (λ store. IsTrue (is_home store.catalog store.site 1)) }
{
    let catalog = catalog(alloc)?;
    Ok(Store::new(alloc, &catalog, SiteId(0))?)
}

// the store of so many of these records
fn promising(alloc: Global, count: u32) -> Result<Store, Fail>
    ensures a { IfOk result (λ store. IsTrue (is_home store.catalog store.site 0)) }
    ensures b { IfOk result (λ store. IsTrue (is_home store.catalog store.site 1)) }
{
    let mut store = empty(alloc)?;
    let past = promises(alloc, count)?;
    store.load(&past)?;
    Ok(store)
}

// Plans and applies that the transaction is prepared, which assigns the item this value.
fn prepare(
    alloc: Global,
    store: &mut Store,
    txn: TxnId,
    item: ItemId,
    value: i64,
) -> Result<(), StoreError>
    requires { IsTrue (is_home store.old.catalog store.old.site item.0) }
{
    let value = Poly::sure(alloc, value)?;
    let change = store.plan_prepare(txn, &[Read { item, value }])?;
    store.apply(change);
    Ok(())
}

// Plans and applies that the transaction's outcome is known.
fn settle(store: &mut Store, txn: TxnId, commits: bool) -> Result<(), NoMemory>
    ensures catalog { store.new.catalog ≡ store.old.catalog }
    ensures site { store.new.site ≡ store.old.site }
{
    let change = store.plan_settle(txn, commits)?;
    store.apply(change);
    Ok(())
}

// whether the cases are this value alone
fn is_sure(cases: &[Case<i64>], value: i64) -> bool {
    match cases {
        [only] => only.when.is_empty() && only.value == value,
        _ => false,
    }
}

// whether the condition is that of this outcome alone
fn is_only(when: &[Literal], commits: bool) -> bool {
    match when {
        [only] => only.txn == HERE && only.commits == commits,
        _ => false,
    }
}

// whether the cases are the first value where the first transaction doesn't commit, and then the second one where it does
fn is_either(cases: &[Case<i64>], old: i64, new: i64) -> bool {
    match cases {
        [first, second] => {
            is_only(&first.when, false)
                && first.value == old
                && is_only(&second.when, true)
                && second.value == new
        }
        _ => false,
    }
}

#[test]
fn a_promise_is_shown_with_both_outcomes(rt: HostRuntime) -> Result<(), Fail> {
    let store = promising(rt.alloc(), 1)?;
    assert!(rt; is_either(store.show(A).cases(), 1, 5));
    assert!(rt; is_sure(store.show(B).cases(), 2));
    let mentioned = store.mentioned()?;
    assert_eq!(rt; mentioned.as_slice(), [HERE].as_slice());
    assert_eq!(rt; store.touched(HERE), [A].as_slice());
    Ok(())
}

#[test]
fn a_second_promise_is_mentioned_too(rt: HostRuntime) -> Result<(), Fail> {
    let alloc = rt.alloc();
    let mut store = promising(alloc, 1)?;
    prepare(alloc, &mut store, THERE, B, 3)?;
    let mentioned = store.mentioned()?;
    assert_eq!(rt; mentioned.as_slice(), [HERE, THERE].as_slice());
    Ok(())
}

#[test]
fn records_that_give_a_thirteenth_name_are_refused(rt: HostRuntime) -> Result<(), Fail> {
    let alloc = rt.alloc();
    let mut store = empty(alloc)?;
    let past = promises(alloc, 13)?;
    assert_eq!(rt; store.load(&past), Err(StoreError::TooManyOutcomes(13)));
    Ok(())
}

// 60 where the first transaction commits, and else 50
fn sixty_or_fifty(alloc: Global) -> Result<Poly<i64>, NameError> {
    let fifty = Poly::sure(alloc, 50)?;
    let sixty = Poly::sure(alloc, 60)?;
    Poly::choose(alloc, HERE, &sixty, &fifty)
}

#[test]
fn a_commit_leaves_the_new_value(rt: HostRuntime) -> Result<(), Fail> {
    let mut store = promising(rt.alloc(), 1)?;
    settle(&mut store, HERE, true)?;
    assert!(rt; is_sure(store.show(A).cases(), 5));
    assert!(rt; store.mentioned()?.is_empty());
    assert!(rt; store.touched(HERE).is_empty());
    let value = sixty_or_fifty(rt.alloc())?;
    let settled = store.settled(rt.alloc(), &value)?;
    assert!(rt; is_sure(settled.cases(), 60));
    Ok(())
}

#[test]
fn each_refusal_has_its_text(rt: HostRuntime) -> Result<(), Fail> {
    let texts = [
        (
            StoreError::TooManyOutcomes(13),
            "a value would name 13 outcomes",
        ),
        (StoreError::NoMemory, "no memory"),
    ];
    for (error, text) in texts {
        let printed = format!(in rt.alloc(); "{error}")?;
        assert_eq!(rt; printed.as_str(), text);
    }
    Ok(())
}
