// Each call once on its happy path: locks that are asked for, refused, renewed, and that end.
use pv_base::{GrantId, ItemId, SiteId, TxnId, Want};
use pv_locks::*;
use std::test::Fail;

// Two transactions.
const FIRST: TxnId = TxnId {
    site: SiteId(0),
    epoch: 1,
    number: 0,
};

const SECOND: TxnId = TxnId {
    site: SiteId(1),
    epoch: 1,
    number: 0,
};

// A want of the item with this number.
fn want(item: u32, exclusive: bool) -> Want {
    Want {
        item: ItemId(item),
        exclusive,
    }
}

// The grant of the one item, if it can be made.
fn granted(locks: &mut Locks, txn: TxnId, want: Want) -> Option<GrantId> {
    match locks.plan_grant(txn, &[want]) {
        Ok(GrantPlan::Fresh(change)) => Some(locks.apply(change)),
        _ => None,
    }
}

#[test]
fn an_item_is_held_until_the_last_tick(rt: HostRuntime) -> Result<(), Fail> {
    let mut locks = Locks::new(rt.alloc(), 1, 0);
    assert!(rt; !locks.any());
    let grant = GrantId {
        epoch: 1,
        number: 0,
    };
    assert_eq!(rt; granted(&mut locks, FIRST, want(3, true)), Some(grant));
    assert!(rt; locks.any());
    assert!(rt;
        matches!(
            locks.plan_grant(SECOND, &[want(3, false)]),
            Ok(GrantPlan::Conflict {
                item: ItemId(3),
                holder: FIRST
            })
        )
    );
    assert!(rt;
        matches!(locks.plan_grant(FIRST, &[want(3, true)]), Ok(GrantPlan::Standing(standing)) if standing == grant)
    );
    assert!(rt;
        matches!(
            locks.plan_grant(FIRST, &[want(3, false)]),
            Ok(GrantPlan::Misfit)
        )
    );
    assert_eq!(rt; locks.wants(FIRST), Some([want(3, true)].as_slice()));
    assert_eq!(rt; locks.holder(ItemId(3)), Some(FIRST));
    locks.tick();
    locks.tick();
    assert_eq!(rt; locks.holds(FIRST), Some(grant));
    locks.tick();
    assert_eq!(rt; locks.holds(FIRST), None);
    assert_eq!(rt; locks.holder(ItemId(3)), None);
    Ok(())
}

#[test]
fn a_grant_is_renewed_and_released(rt: HostRuntime) -> Result<(), Fail> {
    let mut locks = Locks::new(rt.alloc(), 1, 0);
    assert!(rt; granted(&mut locks, SECOND, want(3, false)).is_some());
    assert!(rt; granted(&mut locks, FIRST, want(3, false)).is_some());
    assert_eq!(rt; locks.holder(ItemId(3)), None);
    locks.tick();
    locks.tick();
    locks.renew(FIRST);
    locks.tick();
    assert_eq!(rt; locks.holds(SECOND), None);
    assert!(rt; locks.holds(FIRST).is_some());
    assert!(rt; locks.release(FIRST));
    assert!(rt; !locks.release(FIRST));
    assert!(rt; granted(&mut locks, SECOND, want(3, true)).is_some());
    Ok(())
}

#[test]
fn the_last_number_is_not_given(rt: HostRuntime) -> Result<(), Fail> {
    let mut locks = Locks::new(rt.alloc(), 1, 4_294_967_295);
    assert!(rt;
        matches!(
            locks.plan_grant(FIRST, &[want(3, true)]),
            Err(LockError::Spent)
        )
    );
    Ok(())
}
