// What visits to a box do, in the order in which the rings bring what comes.
use crate::play::{Act, Play, perform};
use pv_cell::Visit;
use std::test::Fail;

const ADD: &[u8] = b"sites 1\nitem a 0 100\nclient 0\nsubmit a := a + 1\n";

// The messages of the site's first transaction, in order, where it adds 1 to 100: it asks for a lock,
const LOCK: &[u8] = &[1, 0, 0, 0, 0, 0, 0, 1, 0, 0, 0, 0, 1, 0, 0, 0, 0, 1];

// which is granted with the value,
const GRANTED: &[u8] = &[
    2, 0, 0, 0, 0, 0, 0, 1, 0, 0, 0, 0, 0, 0, 0, 1, 0, 0, 0, 0, 1, 0, 0, 0, 0, 0, 1, 0, 0, 0, 0, 0,
    0, 0, 0, 100,
];

// it prepares,
const PREPARE: &[u8] = &[
    4, 0, 0, 0, 0, 0, 0, 1, 0, 0, 0, 0, 0, 0, 0, 1, 0, 0, 0, 0, 1, 0, 0, 0, 0, 0, 1, 0, 0, 0, 0, 0,
    0, 0, 0, 101,
];

// and the vote is yes.
const YES: &[u8] = &[5, 0, 0, 0, 0, 0, 0, 1, 0, 0, 0, 0];

// That it doesn't commit.
const ABORTS: &[u8] = &[7, 0, 0, 0, 0, 0, 0, 1, 0, 0, 0, 0, 0];

// The site serves a request. Each message that it sends itself is one visit's, and has the stamp of the entry that sent it.
const SERVED: Play = Play {
    acts: &[
        Act::Asks(0, ADD),
        Act::Visits(1, Visit::Took),
        Act::Passes(1, 0, LOCK),
        Act::Visits(1, Visit::Took),
        Act::Passes(2, 0, GRANTED),
        Act::Visits(1, Visit::Took),
        Act::Passes(3, 0, PREPARE),
        Act::Visits(1, Visit::Took),
        Act::Passes(4, 0, YES),
        Act::Silent,
        Act::Visits(1, Visit::Took),
        Act::Hears(
            "Answer { number: 0, seen: 5, what: Line(Commit { txn: TxnId { site: SiteId(0), epoch: 1, number: 0 }, replies: [Nothing] }) }",
        ),
        Act::Silent,
        Act::Visits(200, Visit::Idle),
    ],
    rows: "1 request 0 0 1 Done([Txn(TxnId { site: SiteId(0), epoch: 1, number: 0 })])
2 parcel 1 0 1 Done([])
3 parcel 2 0 1 Done([])
4 parcel 3 0 1 Done([])
5 parcel 4 0 0 Done([Commit { txn: TxnId { site: SiteId(0), epoch: 1, number: 0 }, replies: [Nothing] }])
",
};

#[test]
fn a_request_is_served(rt: HostRuntime) -> Result<(), Fail> {
    perform(rt.alloc(), &SERVED)
}

// A message is lost. After each 64 visits that find nothing a tick is taken, and at the third one the request is refused. Then the site waits for nothing.
const LOST: Play = Play {
    acts: &[
        Act::Asks(7, ADD),
        Act::Visits(1, Visit::Took),
        Act::Loses(1, 0, LOCK),
        Act::Visits(64, Visit::Idle),
        Act::Visits(1, Visit::Took),
        Act::Visits(64, Visit::Idle),
        Act::Visits(1, Visit::Took),
        Act::Silent,
        Act::Visits(64, Visit::Idle),
        Act::Visits(1, Visit::Took),
        Act::Hears(
            "Answer { number: 7, seen: 4, what: Line(RefuseExpired { txn: TxnId { site: SiteId(0), epoch: 1, number: 0 }, site: SiteId(0) }) }",
        ),
        Act::Loses(4, 0, ABORTS),
        Act::Visits(200, Visit::Idle),
        Act::Ticks(Visit::Took),
        Act::Silent,
    ],
    rows: "1 request 0 7 1 Done([Txn(TxnId { site: SiteId(0), epoch: 1, number: 0 })])
2 tick 0 Done([])
3 tick 0 Done([])
4 tick 1 Done([Refuse { txn: TxnId { site: SiteId(0), epoch: 1, number: 0 }, cause: Expired(SiteId(0)) }])
5 tick 0 Done([])
",
};

#[test]
fn a_tick_comes_after_idle_visits(rt: HostRuntime) -> Result<(), Fail> {
    perform(rt.alloc(), &LOST)
}
