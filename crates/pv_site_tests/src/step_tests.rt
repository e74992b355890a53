// Steps of sites: a commit between two, a promise whose record fails, and two refusals.

use crate::play_tests::{Act, Answer, Noted, Role, Task, play};
use crate::tests::{HERE, THERE};
use pv_base::{ItemId, Reply, SiteId, TxnId};
use pv_disk::AppendFail;
use pv_site::{Cause, StepError};
use std::test::Fail;

// The first transaction of the first site.
const T: TxnId = TxnId {
    site: SiteId(0),
    epoch: 1,
    number: 0,
};

// The first transaction of the second site.
const U: TxnId = TxnId {
    site: SiteId(1),
    epoch: 1,
    number: 0,
};

// The messages about T: of the first site with itself, and between it and the second one. It moves 2 from a to b, or where it is alone sets a to 1.
const LOCK_A: &str = "01 00 00 00 00000001 00000000 01 00000000 01";

const LOCK_B: &str = "01 00 01 00 00000001 00000000 01 00000001 01";

const GRANTED_A: &str =
    "02 00 00 00 00000001 00000000 00000001 00000000 01 00000000 0001 00 0000000000000007";

const GRANTED_B: &str =
    "02 01 00 00 00000001 00000000 00000001 00000000 01 00000001 0001 00 0000000000000008";

const PREPARE_A: &str =
    "04 00 00 00 00000001 00000000 00000001 00000000 01 00000000 0001 00 0000000000000005";

const PREPARE_B: &str =
    "04 00 01 00 00000001 00000000 00000001 00000000 01 00000001 0001 00 000000000000000a";

const PREPARE_ALONE: &str =
    "04 00 00 00 00000001 00000000 00000001 00000000 01 00000000 0001 00 0000000000000001";

const YES_A: &str = "05 00 00 00 00000001 00000000";

const YES_B: &str = "05 01 00 00 00000001 00000000";

const COMMITS_B: &str = "07 00 01 00 00000001 00000000 01";

const ABORTS_A: &str = "07 00 00 00 00000001 00000000 00";

const ABORTS_B: &str = "07 00 01 00 00000001 00000000 00";

// The records: of the epoch, of the promises of T, and of its commit.
const EPOCH: &str = "01 00000001";

const PROMISE_A: &str = "02 00 00000001 00000000 01 00000000 0001 00 0000000000000005";

const PROMISE_B: &str = "02 00 00000001 00000000 01 00000001 0001 00 000000000000000a";

const COMMITTED: &str = "03 00 00000001 00000000 01";

// T commits at both sites.
const COMMIT: [Act; 10] = [
    Act::Submit(
        HERE,
        Task::Move,
        Answer::Both(&[LOCK_A, LOCK_B], &[Noted::Txn(T)]),
    ),
    Act::Take(LOCK_A, Answer::Sends(&[GRANTED_A])),
    Act::Take(LOCK_B, Answer::Sends(&[GRANTED_B])),
    Act::Take(GRANTED_A, Answer::Nothing),
    Act::Take(GRANTED_B, Answer::Locks(T, &[PREPARE_A, PREPARE_B])),
    Act::Take(PREPARE_A, Answer::Sends(&[YES_A])),
    Act::Take(PREPARE_B, Answer::Sends(&[YES_B])),
    Act::Take(YES_A, Answer::Nothing),
    Act::Take(
        YES_B,
        Answer::Both(&[COMMITS_B], &[Noted::Commit(T, &[Reply::Nothing])]),
    ),
    Act::Take(COMMITS_B, Answer::Nothing),
];

// The promise of T fails, which is the second append. The site is down then.
const PROMISE_FAILS: [Act; 5] = [
    Act::Submit(HERE, Task::Set, Answer::Both(&[LOCK_A], &[Noted::Txn(T)])),
    Act::Take(LOCK_A, Answer::Sends(&[GRANTED_A])),
    Act::Take(GRANTED_A, Answer::Locks(T, &[PREPARE_ALONE])),
    Act::Take(PREPARE_ALONE, Answer::Fails(StepError::Fault)),
    Act::Take(PREPARE_ALONE, Answer::Fails(StepError::Down)),
];

// b is denied to T, which is refused, and nothing waits for it any more.
const DENIED: [Act; 6] = [
    Act::Submit(
        HERE,
        Task::Move,
        Answer::Both(&[LOCK_A, LOCK_B], &[Noted::Txn(T)]),
    ),
    Act::Take(LOCK_A, Answer::Sends(&[GRANTED_A])),
    Act::Take(
        "03 01 00 00 00000001 00000000 00000001 01 00000001 00000000",
        Answer::Both(
            &[ABORTS_A, ABORTS_B],
            &[Noted::Refuse(
                T,
                Cause::Conflict {
                    site: THERE,
                    item: ItemId(1),
                    holder: U,
                },
            )],
        ),
    ),
    Act::Take(ABORTS_A, Answer::Nothing),
    Act::Take("08 01 00 00 00000001 00000000", Answer::Sends(&[ABORTS_B])),
    Act::Tick(HERE, Answer::Nothing),
];

// The vote on T is no, since its grant is gone.
const NO_VOTE: [Act; 4] = [
    Act::Submit(HERE, Task::Set, Answer::Both(&[LOCK_A], &[Noted::Txn(T)])),
    Act::Take(LOCK_A, Answer::Sends(&[GRANTED_A])),
    Act::Take(GRANTED_A, Answer::Locks(T, &[PREPARE_ALONE])),
    Act::Take(
        "06 00 00 00 00000001 00000000 01",
        Answer::Both(&[ABORTS_A], &[Noted::Refuse(T, Cause::GrantLost(HERE))]),
    ),
];

const ROLES: &[Role] = &[
    Role {
        site: HERE,
        fails: &[],
        acts: &COMMIT,
        after: &[EPOCH, PROMISE_A, COMMITTED],
    },
    Role {
        site: THERE,
        fails: &[],
        acts: &COMMIT,
        after: &[EPOCH, PROMISE_B, COMMITTED],
    },
    Role {
        site: HERE,
        fails: &[AppendFail {
            number: 1,
            kept: false,
        }],
        acts: &PROMISE_FAILS,
        after: &[EPOCH],
    },
    Role {
        site: HERE,
        fails: &[],
        acts: &DENIED,
        after: &[EPOCH],
    },
    Role {
        site: HERE,
        fails: &[],
        acts: &NO_VOTE,
        after: &[EPOCH],
    },
];

#[test]
fn sites_step_as_they_are_told(rt: HostRuntime) -> Result<(), Fail> {
    play(&rt, rt.alloc(), ROLES)
}
