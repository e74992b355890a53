// Worked coordinators of the first site. The item a is there, and b at the second site. Each call that wants memory has its answer where
// there is some.
use pv_ast::{Expr, Program, Stmt};
use pv_base::{GrantId, ItemId, NoMemory, Reply, SiteId, TxnId, Want};
use pv_check::{Part, Plan};
use pv_coord::*;
use pv_tree::Poly;
use std::alloc::Global;
use std::test::Fail;

const A: ItemId = ItemId(0);

const B: ItemId = ItemId(1);

const HERE: SiteId = SiteId(0);

const THERE: SiteId = SiteId(1);

const ELSEWHERE: SiteId = SiteId(2);

const GRANT: GrantId = GrantId {
    epoch: 1,
    number: 5,
};

// the transaction of the first site and epoch that has this number
fn txn(number: u32) -> TxnId {
    TxnId {
        site: HERE,
        epoch: 1,
        number,
    }
}

// `a := 1`
fn one_to_a(alloc: Global) -> Result<Program, NoMemory> {
    let mut stmts = Vec::new(alloc);
    stmts.push(Stmt::Assign {
        item: A,
        value: Expr::Number(1),
    })?;
    Ok(Program { stmts })
}

// the plan that wants one item of each site, exclusively
fn plan_of(alloc: Global, wanted: &[(SiteId, ItemId)]) -> Result<Plan, NoMemory> {
    let mut parts = Vec::new(alloc);
    for (site, item) in wanted {
        let want = Want {
            item: *item,
            exclusive: true,
        };
        let wants = Vec::from_slice(alloc, &[want])?;
        parts.push(Part { site: *site, wants })?;
    }
    Ok(Plan { parts })
}

// an item with its value
fn read(alloc: Global, item: ItemId, value: i64) -> Result<Vec<Read>, NoMemory> {
    let mut reads = Vec::new(alloc);
    let value = Poly::sure(alloc, value)?;
    reads.push(Read { item, value })?;
    Ok(reads)
}

// Begins a transaction that wants these items.
fn begin(
    alloc: Global,
    coord: &mut Coord,
    wanted: &[(SiteId, ItemId)],
) -> Result<TxnId, CoordError> {
    let program = one_to_a(alloc)?;
    let plan = plan_of(alloc, wanted)?;
    let change = coord.plan_begin(&program, &plan)?;
    Ok(coord.apply_begin(change))
}

// What a grant is, and how many values there are with the last one.
#[derive(Clone, Copy, Debug, PartialEq, Eq)]
enum Taken {
    Ignored,
    Wait,
    Last(usize),
}

// Takes the grant, unless it is to be ignored. With the last one the program replies nothing.
fn take(alloc: Global, coord: &mut Coord, from: SiteId, item: ItemId) -> Result<Taken, NoMemory> {
    let values = read(alloc, item, 7)?;
    match coord.plan_granted(txn(0), from, GRANT, &values)? {
        GrantTaken::Ignored => Ok(Taken::Ignored),
        GrantTaken::Wait(change) => {
            coord.apply_granted(change, None);
            Ok(Taken::Wait)
        }
        GrantTaken::Last { reads, change } => {
            let reply = Poly::sure(alloc, Reply::Nothing)?;
            coord.apply_granted(change, Some(reply));
            Ok(Taken::Last(reads.len()))
        }
    }
}

#[test]
fn a_transaction_of_one_participant_reaches_its_lock_point(rt: HostRuntime) -> Result<(), Fail> {
    let alloc = rt.alloc();
    let mut coord = Coord::new(alloc, HERE, 1, 0);
    let begun = begin(alloc, &mut coord, &[(HERE, A)])?;
    assert_eq!(rt; begun, txn(0));
    let strange = take(alloc, &mut coord, ELSEWHERE, A)?;
    assert_eq!(rt; strange, Taken::Ignored);
    let last = take(alloc, &mut coord, HERE, A)?;
    assert_eq!(rt; last, Taken::Last(1));
    Ok(())
}

#[test]
fn an_entry_without_an_answer_expires_at_the_third_tick(rt: HostRuntime) -> Result<(), Fail> {
    let alloc = rt.alloc();
    let mut coord = Coord::new(alloc, HERE, 1, 0);
    let begun = begin(alloc, &mut coord, &[(HERE, A), (THERE, B)])?;
    for _ in 0..2 {
        let expiries = coord.plan_tick()?;
        assert!(rt; expiries.is_empty());
        coord.apply_tick();
    }
    let expiries = coord.plan_tick()?;
    let expected = [Expiry {
        txn: begun,
        site: HERE,
    }];
    assert_eq!(rt; expiries.as_slice(), expected.as_slice());
    coord.apply_tick();
    assert!(rt; !coord.works(begun));
    Ok(())
}
