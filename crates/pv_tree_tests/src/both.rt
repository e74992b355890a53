// Both forms of polyvalues, worked on side by side with drawn values: they have the same cases.
use pv_base::{SiteId, TxnId};
use std::process::Abort;

// The first transaction of a site.
fn txn(site: u8) -> TxnId {
    TxnId {
        site: SiteId(site),
        epoch: 1,
        number: 0,
    }
}

// The next number of a sequence that looks random (Knuth, The Art of Computer Programming, volume 2).
fn drawn(seed: u64) -> u64 {
    seed.wrapping_mul(6364136223846793005)
        .wrapping_add(1442695040888963407)
}

// A polyvalue in both forms.
#[derive(Drop)]
struct Both {
    plain: pv_poly::Poly<i64>,
    tree: pv_tree::Poly<i64>,
}

// This value at every assignment.
fn sure(rt: &(impl Abort + AllocGlobal), value: i64) -> Both {
    match (
        pv_poly::Poly::sure(rt.alloc(), value),
        pv_tree::Poly::sure(rt.alloc(), value),
    ) {
        (Ok(plain), Ok(tree)) => Both { plain, tree },
        _ => rt.abort(),
    }
}

// The new value where the first transaction of the site commits, and else the old one. Both forms have it, and the same cases.
fn chosen(rt: &(impl Abort + AllocGlobal), site: u8, new: &Both, old: &Both) -> Both {
    let plain = pv_poly::Poly::choose(rt.alloc(), txn(site), &new.plain, &old.plain);
    let tree = pv_tree::Poly::choose(rt.alloc(), txn(site), &new.tree, &old.tree);
    match (plain, tree) {
        (Ok(plain), Ok(tree)) => checked(rt, Both { plain, tree }),
        _ => rt.abort(),
    }
}

// The value once the outcome of the first transaction of the site is known. Both forms have the same cases.
fn settled(rt: &(impl Abort + AllocGlobal), site: u8, commits: bool, value: &Both) -> Both {
    let plain = value.plain.settle(rt.alloc(), txn(site), commits);
    let tree = value.tree.settle(rt.alloc(), txn(site), commits);
    match (plain, tree) {
        (Ok(plain), Ok(tree)) => checked(rt, Both { plain, tree }),
        _ => rt.abort(),
    }
}

// The same, if both forms have the same cases, names and value where none commits.
fn checked(rt: &(impl Abort + AllocGlobal), both: Both) -> Both {
    assert_eq!(rt; both.plain.cases(), both.tree.cases());
    assert_eq!(rt; both.plain.at(&[]), both.tree.at(&[]));
    match (both.plain.names(rt.alloc()), both.tree.names(rt.alloc())) {
        (Ok(plain), Ok(tree)) => assert_eq!(rt; plain.as_slice(), tree.as_slice()),
        _ => rt.abort(),
    }
    both
}

#[test]
fn both_forms_have_the_same_cases(rt: HostRuntime) {
    let mut seed = 1;
    let mut value = sure(&rt, 0);
    for _ in 0..200 {
        seed = drawn(seed);
        let site = ((seed >> 32) % 6) as u8;
        let new = match (seed >> 48) % 4 {
            0 => settled(&rt, site, true, &value),
            1 => settled(&rt, site, false, &value),
            _ => sure(&rt, ((seed >> 40) % 3) as i64),
        };
        value = chosen(&rt, ((seed >> 36) % 6) as u8, &new, &value);
    }
}
