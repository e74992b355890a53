// Worked lines of each kind, each as text and as JSON.
ghost use Rattle.std.specs.Prelude.{◌≡◌, length, IfOk};
ghost use Rattle.pv_report.specs.NamesOnlyItems.{NamesOnlyItems};
ghost use Rattle.pv_script.specs.LineView.{line_of};

use pv_ast::{Decline, Reply};
use pv_base::{Case, Catalog, CatalogError, ItemId, Literal, MAX_JOURNAL, NoMemory, SiteId, TxnId};
use pv_report::*;
use pv_script::{Line, MessageKind};
use std::alloc::Global;
use std::test::Fail;

const T: TxnId = TxnId {
    site: SiteId(0),
    epoch: 1,
    number: 0,
};

const U: TxnId = TxnId {
    site: SiteId(1),
    epoch: 2,
    number: 10,
};

const DECLINED: [Reply; 3] = [
    Reply::Declined(Decline::Require),
    Reply::Declined(Decline::Overflow),
    Reply::Declined(Decline::ZeroDivisor),
];

const IF_NOT_T: [Literal; 1] = [Literal {
    txn: T,
    commits: false,
}];

const IF_T_AND_NOT_U: [Literal; 2] = [
    Literal {
        txn: T,
        commits: true,
    },
    Literal {
        txn: U,
        commits: false,
    },
];

// The text of each line that `worked_line` gives, and its JSON.
const TEXTS: [(&str, &str); 39] = [
    ("txn 0.1.0\n", "{\"txn\":\"0.1.0\"}\n"),
    (
        "commit 0.1.0 certain nothing\n",
        "{\"commit\":\"0.1.0\",\"replies\":[\"nothing\"]}\n",
    ),
    (
        "commit 1.2.10 possible 50 -60\n",
        "{\"commit\":\"1.2.10\",\"replies\":[50,-60]}\n",
    ),
    (
        "commit 0.1.0 possible declined-require declined-overflow declined-zero-divisor\n",
        "{\"commit\":\"0.1.0\",\"replies\":[\"declined-require\",\"declined-overflow\",\"declined-zero-divisor\"]}\n",
    ),
    (
        "refuse 1.2.10 conflict 0 a 0.1.0\n",
        "{\"cause\":\"conflict\",\"holder\":\"0.1.0\",\"item\":\"a\",\"refuse\":\"1.2.10\",\"site\":0}\n",
    ),
    (
        "refuse 0.1.0 outcome-limit 12\n",
        "{\"cause\":\"outcome-limit\",\"names\":12,\"refuse\":\"0.1.0\"}\n",
    ),
    (
        "refuse 0.1.0 expired 1\n",
        "{\"cause\":\"expired\",\"refuse\":\"0.1.0\",\"site\":1}\n",
    ),
    (
        "refuse 0.1.0 grant-lost 1\n",
        "{\"cause\":\"grant-lost\",\"refuse\":\"0.1.0\",\"site\":1}\n",
    ),
    (
        "refuse 0.1.0 journal-full 0 66\n",
        "{\"cause\":\"journal-full\",\"length\":66,\"refuse\":\"0.1.0\",\"site\":0}\n",
    ),
    ("full 0 39\n", "{\"full\":0,\"length\":39}\n"),
    ("spent 15\n", "{\"spent\":15}\n"),
    ("down 0\n", "{\"down\":0}\n"),
    ("up 0\n", "{\"up\":0}\n"),
    ("stopped 0\n", "{\"stopped\":0}\n"),
    ("fault 1\n", "{\"fault\":1}\n"),
    ("started 0 2\n", "{\"epoch\":2,\"started\":0}\n"),
    (
        "no message 18446744073709551615\n",
        "{\"no-message\":18446744073709551615}\n",
    ),
    (
        "sent 7 0>1 lock 0.1.0\n",
        "{\"from\":0,\"kind\":\"lock\",\"sent\":7,\"to\":1,\"txn\":\"0.1.0\"}\n",
    ),
    (
        "sent 7 0>1 granted 0.1.0\n",
        "{\"from\":0,\"kind\":\"granted\",\"sent\":7,\"to\":1,\"txn\":\"0.1.0\"}\n",
    ),
    (
        "sent 7 0>1 denied 0.1.0\n",
        "{\"from\":0,\"kind\":\"denied\",\"sent\":7,\"to\":1,\"txn\":\"0.1.0\"}\n",
    ),
    (
        "sent 7 0>1 prepare 0.1.0\n",
        "{\"from\":0,\"kind\":\"prepare\",\"sent\":7,\"to\":1,\"txn\":\"0.1.0\"}\n",
    ),
    (
        "sent 7 0>1 yes 0.1.0\n",
        "{\"from\":0,\"kind\":\"yes\",\"sent\":7,\"to\":1,\"txn\":\"0.1.0\"}\n",
    ),
    (
        "sent 7 0>1 no 0.1.0\n",
        "{\"from\":0,\"kind\":\"no\",\"sent\":7,\"to\":1,\"txn\":\"0.1.0\"}\n",
    ),
    (
        "sent 7 0>1 outcome 0.1.0\n",
        "{\"from\":0,\"kind\":\"outcome\",\"sent\":7,\"to\":1,\"txn\":\"0.1.0\"}\n",
    ),
    (
        "sent 7 0>1 ask 0.1.0\n",
        "{\"from\":0,\"kind\":\"ask\",\"sent\":7,\"to\":1,\"txn\":\"0.1.0\"}\n",
    ),
    (
        "order 0.1.0 1.2.10\n",
        "{\"order\":[\"0.1.0\",\"1.2.10\"]}\n",
    ),
    (
        "committed 0.1.0 1.2.10\n",
        "{\"committed\":[\"0.1.0\",\"1.2.10\"]}\n",
    ),
    ("open\n", "{\"open\":[]}\n"),
    (
        "item a 101\n",
        "{\"cases\":[{\"value\":101,\"when\":[]}],\"item\":\"a\"}\n",
    ),
    (
        "item b 50 if -0.1.0 ; -60 if +0.1.0 -1.2.10\n",
        "{\"cases\":[{\"value\":50,\"when\":[\"-0.1.0\"]},{\"value\":-60,\"when\":[\"+0.1.0\",\"-1.2.10\"]}],\"item\":\"b\"}\n",
    ),
    (
        "item b locked 0.1.0\n",
        "{\"item\":\"b\",\"locked\":\"0.1.0\"}\n",
    ),
    ("item a down\n", "{\"down\":true,\"item\":\"a\"}\n"),
    ("end\n", "{\"end\":true}\n"),
    ("total certain 150\n", "{\"total\":[\"150\"]}\n"),
    (
        "total possible -9223372036854775809 0\n",
        "{\"total\":[\"-9223372036854775809\",\"0\"]}\n",
    ),
    ("total locked b\n", "{\"locked\":\"b\",\"total\":null}\n"),
    ("total down 1\n", "{\"down\":1,\"total\":null}\n"),
    (
        "total outcome-limit 13\n",
        "{\"names\":13,\"total\":null}\n",
    ),
    (
        "refuse 0.1.0 uncertain a 2\n",
        "{\"cause\":\"uncertain\",\"item\":\"a\",\"names\":2,\"refuse\":\"0.1.0\"}\n",
    ),
];

// The items a at site 0 and b at site 1.
fn two_items(alloc: Global) -> Result<Catalog, CatalogError>
    ensures { IfOk result (λ catalog. length catalog.items ≡ 2) }
{
    let mut catalog = Catalog::new(alloc, 2, MAX_JOURNAL);
    catalog.add(b"a", SiteId(0), 100)?;
    catalog.add(b"b", SiteId(1), 50)?;
    Ok(catalog)
}

// The value, whatever commits.
fn one_case(alloc: Global) -> Result<Vec<Case<i64>>, NoMemory> {
    let mut cases = Vec::new(alloc);
    push_case(alloc, &mut cases, &[], 101)?;
    Ok(cases)
}

// 50 where T doesn't commit, and -60 where it does and U doesn't.
fn two_cases(alloc: Global) -> Result<Vec<Case<i64>>, NoMemory> {
    let mut cases = Vec::new(alloc);
    push_case(alloc, &mut cases, &IF_NOT_T, 50)?;
    push_case(alloc, &mut cases, &IF_T_AND_NOT_U, -60)?;
    Ok(cases)
}

fn push_case(
    alloc: Global,
    cases: &mut Vec<Case<i64>>,
    when: &[Literal],
    value: i64,
) -> Result<(), NoMemory> {
    let when = Vec::from_slice(alloc, when)?;
    Ok(cases.push(Case { when, value })?)
}

// The line of this number.
fn worked_line(alloc: Global, number: usize, catalog: &Catalog) -> Result<Line, NoMemory>
    requires { length catalog.now.items ≡ 2 }
    ensures { IfOk result (λ line. NamesOnlyItems catalog.now (line_of line)) }
{
    match number {
        0 => Ok(Line::Txn(T)),
        1 => Ok(Line::Commit {
            txn: T,
            replies: Vec::from_slice(alloc, &[Reply::Nothing])?,
        }),
        2 => Ok(Line::Commit {
            txn: U,
            replies: Vec::from_slice(alloc, &[Reply::Value(50), Reply::Value(-60)])?,
        }),
        3 => Ok(Line::Commit {
            txn: T,
            replies: Vec::from_slice(alloc, &DECLINED)?,
        }),
        4 => Ok(Line::RefuseConflict {
            txn: U,
            site: SiteId(0),
            item: ItemId(0),
            holder: T,
        }),
        5 => Ok(Line::RefuseLimit { txn: T, names: 12 }),
        6 => Ok(Line::RefuseExpired {
            txn: T,
            site: SiteId(1),
        }),
        7 => Ok(Line::RefuseLost {
            txn: T,
            site: SiteId(1),
        }),
        8 => Ok(Line::RefuseFull {
            txn: T,
            site: SiteId(0),
            length: 66,
        }),
        9 => Ok(Line::Full {
            site: SiteId(0),
            length: 39,
        }),
        10 => Ok(Line::Spent(SiteId(15))),
        11 => Ok(Line::Down(SiteId(0))),
        12 => Ok(Line::Up(SiteId(0))),
        13 => Ok(Line::Stopped(SiteId(0))),
        14 => Ok(Line::Fault(SiteId(1))),
        15 => Ok(Line::Started {
            site: SiteId(0),
            epoch: 2,
        }),
        16 => Ok(Line::NoMessage(18_446_744_073_709_551_615)),
        17 => Ok(Line::Sent {
            number: 7,
            from: SiteId(0),
            to: SiteId(1),
            kind: MessageKind::Lock,
            txn: T,
        }),
        18 => Ok(Line::Sent {
            number: 7,
            from: SiteId(0),
            to: SiteId(1),
            kind: MessageKind::Granted,
            txn: T,
        }),
        19 => Ok(Line::Sent {
            number: 7,
            from: SiteId(0),
            to: SiteId(1),
            kind: MessageKind::Denied,
            txn: T,
        }),
        20 => Ok(Line::Sent {
            number: 7,
            from: SiteId(0),
            to: SiteId(1),
            kind: MessageKind::Prepare,
            txn: T,
        }),
        21 => Ok(Line::Sent {
            number: 7,
            from: SiteId(0),
            to: SiteId(1),
            kind: MessageKind::Yes,
            txn: T,
        }),
        22 => Ok(Line::Sent {
            number: 7,
            from: SiteId(0),
            to: SiteId(1),
            kind: MessageKind::No,
            txn: T,
        }),
        23 => Ok(Line::Sent {
            number: 7,
            from: SiteId(0),
            to: SiteId(1),
            kind: MessageKind::Outcome,
            txn: T,
        }),
        24 => Ok(Line::Sent {
            number: 7,
            from: SiteId(0),
            to: SiteId(1),
            kind: MessageKind::Ask,
            txn: T,
        }),
        25 => Ok(Line::Order(Vec::from_slice(alloc, &[T, U])?)),
        26 => Ok(Line::Committed(Vec::from_slice(alloc, &[T, U])?)),
        27 => Ok(Line::OpenOnes(Vec::new(alloc))),
        28 => Ok(Line::Item {
            item: ItemId(0),
            cases: one_case(alloc)?,
        }),
        29 => Ok(Line::Item {
            item: ItemId(1),
            cases: two_cases(alloc)?,
        }),
        30 => Ok(Line::ItemLocked {
            item: ItemId(1),
            txn: T,
        }),
        31 => Ok(Line::ItemDown(ItemId(0))),
        32 => Ok(Line::End),
        33 => Ok(Line::Total(Vec::from_slice(alloc, &[150])?)),
        34 => Ok(Line::Total(Vec::from_slice(alloc, &[-9_223_372_036_854_775_809, 0])?)),
        35 => Ok(Line::TotalLocked(ItemId(1))),
        36 => Ok(Line::TotalDown(SiteId(1))),
        37 => Ok(Line::TotalLimit(13)),
        _ => Ok(Line::RefuseUncertain {
            txn: T,
            item: ItemId(0),
            names: 2,
        }),
    }
}

#[test]
fn each_kind_of_line_has_its_text_and_its_json(rt: HostRuntime) -> Result<(), Fail> {
    let alloc = rt.alloc();
    let catalog = two_items(alloc)?;
    for (number, (text, object)) in TEXTS.iter().enumerate() {
        let line = worked_line(alloc, number, &catalog)?;
        let printed = print(alloc, &line, &catalog)?;
        assert_eq!(rt; printed.as_slice(), text.as_bytes(), "at {text}");
        let printed = json(alloc, &line, &catalog)?;
        assert_eq!(rt; printed.as_slice(), object.as_bytes(), "at {object}");
    }
    Ok(())
}

#[test]
fn a_line_is_put_behind_what_the_buffer_holds(rt: HostRuntime) -> Result<(), Fail> {
    let alloc = rt.alloc();
    let catalog = two_items(alloc)?;
    let mut text = Vec::new(alloc);
    push_line(&mut text, &Line::ItemDown(ItemId(1)), &catalog)?;
    push_line(&mut text, &Line::End, &catalog)?;
    push_json(&mut text, &Line::End, &catalog)?;
    assert_eq!(rt;
        text.as_slice(),
        b"item b down\nend\n{\"end\":true}\n".as_slice()
    );
    Ok(())
}
