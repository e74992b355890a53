// Each case of each message.
use pv_base::{GrantId, ItemId, SiteId, TxnId, Want};
use pv_locks::{GrantPlan, Locks};
use pv_part::*;
use std::test::Fail;

// A transaction, its site, and another site.
const TXN: TxnId = TxnId {
    site: SiteId(0),
    epoch: 1,
    number: 0,
};

const HOME: SiteId = SiteId(0);

const OTHER: SiteId = SiteId(1);

#[test]
fn a_lock_message_is_passed_on_or_not(rt: HostRuntime) -> Result<(), Fail> {
    let locks = Locks::new(rt.alloc(), 1, 0);
    assert!(rt; on_lock(&locks, TXN, HOME, false, false));
    assert!(rt; !on_lock(&locks, TXN, OTHER, false, false));
    assert!(rt; !on_lock(&locks, TXN, HOME, true, false));
    assert!(rt; !on_lock(&locks, TXN, HOME, false, true));
    Ok(())
}

#[test]
fn a_vote_needs_the_very_grant(rt: HostRuntime) -> Result<(), Fail> {
    let mut locks = Locks::new(rt.alloc(), 1, 0);
    let want = Want {
        item: ItemId(3),
        exclusive: true,
    };
    let first = GrantId {
        epoch: 1,
        number: 0,
    };
    let next = GrantId {
        epoch: 1,
        number: 1,
    };
    assert_eq!(rt;
        on_prepare(&locks, TXN, HOME, first, false),
        PrepareCase::Lost
    );
    if let Ok(GrantPlan::Fresh(change)) = locks.plan_grant(TXN, &[want]) {
        locks.apply(change);
    }
    assert_eq!(rt;
        on_prepare(&locks, TXN, OTHER, first, false),
        PrepareCase::Nothing
    );
    assert_eq!(rt;
        on_prepare(&locks, TXN, HOME, first, true),
        PrepareCase::Again
    );
    assert_eq!(rt;
        on_prepare(&locks, TXN, HOME, first, false),
        PrepareCase::Go
    );
    assert_eq!(rt;
        on_prepare(&locks, TXN, HOME, next, false),
        PrepareCase::Lost
    );
    Ok(())
}

#[test]
fn an_outcome_is_recorded_where_it_is_needed(rt: HostRuntime) -> Result<(), Fail> {
    assert_eq!(rt;
        on_outcome(TXN, OTHER, true, false, true, false),
        OutcomeCase::Nothing
    );
    assert_eq!(rt;
        on_outcome(TXN, HOME, true, true, true, false),
        OutcomeCase::Nothing
    );
    assert_eq!(rt;
        on_outcome(TXN, HOME, true, false, true, false),
        OutcomeCase::Record
    );
    assert_eq!(rt;
        on_outcome(TXN, HOME, false, false, false, true),
        OutcomeCase::Record
    );
    assert_eq!(rt;
        on_outcome(TXN, HOME, false, false, false, false),
        OutcomeCase::Release
    );
    assert_eq!(rt;
        on_outcome(TXN, HOME, true, false, false, false),
        OutcomeCase::Nothing
    );
    Ok(())
}
