// What no clause says: that the worked traces are judged as they were by hand, and each verdict once, at its edge. The texts were worked out from the rules, apart from the program.
use pv_audit::{Verdict, audit, read_trace};
use pv_base::{ItemId, SiteId, TxnId};
use pv_script::MAX_SCHEDULE;
use std::process::Abort;

// What is to be answered.
enum Wanted {
    Yes(u32),
    NoOrder(u32, TxnId),
    NoItem(u32, ItemId, &'static [TxnId]),
    Limit(u32, u32),
}

const A: ItemId = ItemId(0);

const B: ItemId = ItemId(1);

// The first transaction of the first site, the one after it, and the first of the third site.
const FIRST: TxnId = TxnId {
    site: SiteId(0),
    epoch: 1,
    number: 0,
};

const SECOND: TxnId = TxnId {
    site: SiteId(0),
    epoch: 1,
    number: 1,
};

const THIRD_SITE: TxnId = TxnId {
    site: SiteId(2),
    epoch: 1,
    number: 0,
};

// Traces, each with its verdict.
const TRACES: &[(&str, Wanted)] = &[
    ("> sites 1", Wanted::Yes(0)),
    // A transfer whose outcome doesn't reach the second site.
    (
        "> sites 2\n> item a 0 100\n> item b 1 50\n> submit 0 a := a - 10 ; b := b + 10\ntxn 0.1.0\n> pump 8\ncommit 0.1.0 certain nothing\n> lose 8\n> tick 1\n> tick 1\n> tick 1\n> lose 9\n> report\norder 0.1.0\ncommitted 0.1.0\nopen\nitem a 90\nitem b 50 if -0.1.0 ; 60 if +0.1.0\nend\n",
        Wanted::Yes(1),
    ),
    (
        "> sites 2\n> item a 0 100\n> item b 1 50\n> submit 0 a := a - 10 ; b := b + 10\ntxn 0.1.0\n> pump 8\ncommit 0.1.0 certain nothing\n> lose 8\n> tick 1\n> tick 1\n> tick 1\n> lose 9\n> report\norder 0.1.0\ncommitted 0.1.0\nopen\nitem a 90\nitem b 50 if -0.1.0 ; 61 if +0.1.0\nend\n",
        Wanted::NoItem(1, B, &[]),
    ),
    // A participant gives its grant up while another shows its new value.
    (
        "> sites 3\n> item a 0 100\n> item b 1 50\n> submit 2 a := a - 10 ; b := b + 10\ntxn 2.1.0\n> pump 5\n> report\norder 2.1.0\ncommitted\nopen 2.1.0\nitem a locked 2.1.0\nitem b locked 2.1.0\nend\n> tick 1\n> tick 1\n> tick 1\n> tick 0\n> tick 0\n> tick 0\n> report\norder 2.1.0\ncommitted\nopen\nitem a 100 if -2.1.0 ; 90 if +2.1.0\nitem b 50\nend\n> pump\nrefuse 2.1.0 grant-lost 1\n> report\norder 2.1.0\ncommitted\nopen\nitem a 100\nitem b 50\nend\n",
        Wanted::Yes(3),
    ),
    (
        "> sites 3\n> item a 0 100\n> item b 1 50\n> submit 2 a := a - 10 ; b := b + 10\ntxn 2.1.0\n> pump 5\n> report\norder 2.1.0\ncommitted\nopen 2.1.0\nitem a locked 2.1.0\nitem b locked 2.1.0\nend\n> tick 1\n> tick 1\n> tick 1\n> tick 0\n> tick 0\n> tick 0\n> report\norder 2.1.0\ncommitted\nopen 2.1.0\nitem a 100 if -2.1.0 ; 90 if +2.1.0\nitem b 50\nend\n> pump\nrefuse 2.1.0 grant-lost 1\n> report\norder 2.1.0\ncommitted\nopen\nitem a 100\nitem b 50\nend\n",
        Wanted::NoItem(2, B, &[THIRD_SITE]),
    ),
    // The first of two requests with one line is the one that counts.
    (
        "> sites 1\n> item a 0 0\n> submit 0 a := 1\ntxn 0.1.0\n> submit 0 a := 2\ntxn 0.1.0\n> report\norder 0.1.0\ncommitted 0.1.0\nopen\nitem a 1\nend",
        Wanted::Yes(1),
    ),
    // Of the lists at which a value differs the one where the least transaction doesn't commit comes first.
    (
        "> sites 1\n> item a 0 0\n> submit 0 a := 1\ntxn 0.1.0\n> submit 0 a := 2\ntxn 0.1.1\n> report\norder 0.1.0 0.1.1\ncommitted\nopen 0.1.1 0.1.0\nitem a 0 if -0.1.0 -0.1.1 ; 3 if -0.1.0 +0.1.1 ; 4 if +0.1.0 -0.1.1 ; 2 if +0.1.0 +0.1.1\nend",
        Wanted::NoItem(1, A, &[SECOND]),
    ),
    // Transactions without a place: begun by no request, or by one behind the report; twice in the order; committed or open, but not in the order; both.
    (
        "> sites 1\n> item a 0 0\n> report\norder 0.1.0\ncommitted\nopen\nitem a 0\nend\n> submit 0 a := 1\ntxn 0.1.0",
        Wanted::NoOrder(1, FIRST),
    ),
    (
        "> sites 1\n> item a 0 0\n> report\norder\ncommitted\nopen\nitem a 0\nend\n> submit 0 a := 1\ntxn 0.1.0\n> report\norder 0.1.0 0.1.0\ncommitted 0.1.0\nopen\nitem a 1\nend",
        Wanted::NoOrder(2, FIRST),
    ),
    (
        "> sites 1\n> item a 0 0\n> submit 0 a := 1\ntxn 0.1.0\n> report\norder 0.1.0\ncommitted 0.1.0 0.1.1\nopen\nitem a 1\nend",
        Wanted::NoOrder(1, SECOND),
    ),
    (
        "> sites 1\n> item a 0 0\n> submit 0 a := 1\ntxn 0.1.0\n> report\norder 0.1.0\ncommitted 0.1.0\nopen 0.1.1\nitem a 1\nend",
        Wanted::NoOrder(1, SECOND),
    ),
    (
        "> sites 1\n> item a 0 0\n> submit 0 a := 1\ntxn 0.1.0\n> report\norder 0.1.0\ncommitted 0.1.0\nopen 0.1.0\nitem a 1\nend",
        Wanted::NoOrder(1, FIRST),
    ),
    // The thirteenth transaction reads a value that depends on twelve.
    (
        "> sites 1\n> item a 0 0\n> submit 0 a := 1\ntxn 0.1.0\n> submit 0 a := 2\ntxn 0.1.1\n> submit 0 a := 3\ntxn 0.1.2\n> submit 0 a := 4\ntxn 0.1.3\n> submit 0 a := 5\ntxn 0.1.4\n> submit 0 a := 6\ntxn 0.1.5\n> submit 0 a := 7\ntxn 0.1.6\n> submit 0 a := 8\ntxn 0.1.7\n> submit 0 a := 9\ntxn 0.1.8\n> submit 0 a := 10\ntxn 0.1.9\n> submit 0 a := 11\ntxn 0.1.10\n> submit 0 a := 12\ntxn 0.1.11\n> submit 0 a := 13\ntxn 0.1.12\n> report\norder 0.1.0 0.1.1 0.1.2 0.1.3 0.1.4 0.1.5 0.1.6 0.1.7 0.1.8 0.1.9 0.1.10 0.1.11 0.1.12\ncommitted\nopen 0.1.0 0.1.1 0.1.2 0.1.3 0.1.4 0.1.5 0.1.6 0.1.7 0.1.8 0.1.9 0.1.10 0.1.11 0.1.12\nitem a locked 0.1.0\nend\n",
        Wanted::Limit(1, 12),
    ),
];

// Asserts that the text is a trace with this verdict.
fn assert_judged(rt: &(impl Abort + AllocGlobal), text: &str, wanted: &Wanted) {
    if text.len() > MAX_SCHEDULE {
        panic!(rt; "too long a text");
    }
    match read_trace(rt.alloc(), text.as_bytes()) {
        Ok(trace) => match audit(rt.alloc(), &trace) {
            Ok(verdict) => assert!(rt; is_wanted(&verdict, wanted)),
            Err(_) => panic!(rt; "no memory"),
        },
        Err(_) => panic!(rt; "no trace"),
    }
}

fn is_wanted(verdict: &Verdict, wanted: &Wanted) -> bool {
    match (verdict, wanted) {
        (Verdict::Yes(reports), Wanted::Yes(count)) => reports == count,
        (Verdict::NoOrder { report, txn }, Wanted::NoOrder(number, other)) => {
            report == number && txn == other
        },
        (Verdict::NoItem { report, item, yes }, Wanted::NoItem(number, other, txns)) => {
            report == number && item == other && yes.as_slice() == *txns
        },
        (Verdict::Limit { report, names }, Wanted::Limit(number, count)) => {
            report == number && names == count
        },
        _ => false,
    }
}

#[test]
fn traces_are_judged(rt: HostRuntime) {
    for (text, wanted) in TRACES {
        assert_judged(&rt, text, wanted);
    }
}
