// Worked polyvalues; and that calls which want memory have their answer where there is some.
//
// Cases stand here as texts: `0- 50; 0+ 1- 60;` are 50 where the first transaction of site 0 doesn't commit, and 60 where it commits and the
// first one of site 1 doesn't.
ghost use Rattle.std.specs.Prelude.{◌≡◌, ◌<◌, ◌^◌, true, length, map};
ghost use Rattle.std.specs.List.{sum};

use pv_base::{Case, CaseError, Literal, NameError, NoMemory, SiteId, TxnId};
use pv_cases::ordered;
use pv_tree::Poly;
use std::alloc::Global;
use std::process::Abort;
use std::test::Fail;

// The first transaction of a site.
fn txn(site: u8) -> TxnId {
    TxnId {
        site: SiteId(site),
        epoch: 1,
        number: 0,
    }
}

fn commits(site: u8) -> Literal {
    Literal {
        txn: txn(site),
        commits: true,
    }
}

fn aborts(site: u8) -> Literal {
    Literal {
        txn: txn(site),
        commits: false,
    }
}

// The number so far with this digit after it, or 0 after any other byte.
fn next_number(number: u8, byte: u8) -> u8 {
    if byte.is_ascii_digit() {
        number.wrapping_mul(10).wrapping_add(byte - b'0')
    } else {
        0
    }
}

// The cases of a text.
fn case_list(alloc: Global, text: &str) -> Result<Vec<Case<i64>>, NoMemory> {
    let mut cases = Vec::new(alloc);
    let mut when = Vec::new(alloc);
    let mut number = 0;
    for byte in text.as_bytes() {
        match *byte {
            b'-' => when.push(aborts(number))?,
            b'+' => when.push(commits(number))?,
            b';' => {
                let value = i64::from(number);
                cases.push(Case { when, value })?;
                when = Vec::new(alloc);
            },
            _ => {},
        }
        number = next_number(number, *byte);
    }
    Ok(cases)
}

// Whether the cases and their literals are as few as joining them wants; in a test they are.
fn are_few(cases: &[Case<i64>]) -> bool
    ensures { result ≡ true → (length cases.now < 2 ^ 32) × (sum (map (λ case. length case.when) cases.now) < 2 ^ 32) }
{
    if cases.len() > 256 {
        return false;
    }
    let mut literals = 0;
    for case in cases {
        if case.when.len() > 256 {
            return false;
        }
        literals += case.when.len() as u32;
    }
    true
}

fn from_cases(rt: &(impl Abort + AllocGlobal), cases: &str) -> Result<Poly<i64>, CaseError> {
    let cases = case_list(rt.alloc(), cases)?;
    assert!(rt; are_few(&cases));
    Poly::from_cases(rt.alloc(), cases)
}

fn join(rt: &(impl Abort + AllocGlobal), cases: &str) -> Result<Poly<i64>, CaseError> {
    let cases = case_list(rt.alloc(), cases)?;
    assert!(rt; are_few(&cases));
    Poly::join(rt.alloc(), cases)
}

// The polyvalue of this number where the first transaction of the site commits, and else of the old one.
fn chosen(alloc: Global, site: u8, new: i64, old: &Poly<i64>) -> Result<Poly<i64>, NameError> {
    let new = Poly::sure(alloc, new)?;
    Poly::choose(alloc, txn(site), &new, old)
}

// The polyvalue of 50, or of 60 where the first transaction commits.
fn fifty_or_sixty(alloc: Global) -> Result<Poly<i64>, NameError> {
    let old = Poly::sure(alloc, 50)?;
    chosen(alloc, 0, 60, &old)
}

// The polyvalue once two outcomes are known, of which the first is on the earlier transaction.
fn settle_both(
    rt: &impl Abort,
    alloc: Global,
    poly: &Poly<i64>,
    first: Literal,
    second: Literal,
) -> Result<Poly<i64>, NoMemory> {
    assert!(rt; first.txn < second.txn);
    poly.settle_all(alloc, &[first, second])
}

// Asserts that these are the cases of the polyvalue.
fn assert_cases(rt: &(impl Abort + AllocGlobal), poly: &Poly<i64>, wanted: &str) {
    let Ok(wanted) = case_list(rt.alloc(), wanted) else {
        panic!(rt; "no memory");
    };
    assert_eq!(rt; poly.cases(), wanted.as_slice());
}

// Asserts that these are the cases once the outcome is known.
fn assert_settled(rt: &(impl Abort + AllocGlobal), poly: &Poly<i64>, known: Literal, wanted: &str) {
    match poly.settle(rt.alloc(), known.txn, known.commits) {
        Ok(settled) => assert_cases(rt, &settled, wanted),
        Err(error) => panic!(rt; "{error}"),
    }
}

// Asserts that this was made of cases: a polyvalue of these, or this refusal.
fn assert_answer(
    rt: &(impl Abort + AllocGlobal),
    made: Result<Poly<i64>, CaseError>,
    wanted: &str,
) {
    match made {
        Ok(poly) => assert_cases(rt, &poly, wanted),
        Err(error) => match format!(in rt.alloc(); "{error:?}") {
            Ok(printed) => assert_eq!(rt; printed.as_str(), wanted),
            Err(_) => panic!(rt; "no memory"),
        },
    }
}

#[test]
fn a_choice_has_the_old_case_first(rt: HostRuntime) -> Result<(), Fail> {
    let poly = fifty_or_sixty(rt.alloc())?;
    assert_cases(&rt, &poly, "0- 50; 0+ 60;");
    assert_eq!(rt; poly.at(&[]), 50);
    assert_eq!(rt; poly.at(&[txn(1), txn(0)]), 60);
    let same = Poly::choose(rt.alloc(), txn(0), &poly, &poly)?;
    assert_cases(&rt, &same, "0- 50; 0+ 60;");
    assert!(rt; poly.copy(rt.alloc())? == poly);
    Ok(())
}

#[test]
fn a_choice_by_a_later_transaction_goes_below(rt: HostRuntime) -> Result<(), Fail> {
    let old = fifty_or_sixty(rt.alloc())?;
    let poly = chosen(rt.alloc(), 1, 60, &old)?;
    assert_cases(&rt, &poly, "0- 1- 50; 0- 1+ 60; 0+ 60;");
    let names = poly.names(rt.alloc())?;
    assert_eq!(rt; names.as_slice(), [txn(0), txn(1)].as_slice());
    assert_settled(&rt, &poly, commits(1), "60;");
    assert_settled(&rt, &poly, aborts(0), "1- 50; 1+ 60;");
    assert_settled(&rt, &poly, commits(2), "0- 1- 50; 0- 1+ 60; 0+ 60;");
    Ok(())
}

#[test]
fn two_outcomes_are_put_in_at_once(rt: HostRuntime) -> Result<(), Fail> {
    let old = fifty_or_sixty(rt.alloc())?;
    let poly = chosen(rt.alloc(), 1, 70, &old)?;
    let settled = settle_both(&rt, rt.alloc(), &poly, commits(0), aborts(2))?;
    assert_cases(&rt, &settled, "1- 60; 1+ 70;");
    Ok(())
}

#[test]
fn a_thirteenth_name_is_refused(rt: HostRuntime) -> Result<(), Fail> {
    let mut poly = Poly::sure(rt.alloc(), 0)?;
    for site in 0..12 {
        poly = chosen(rt.alloc(), site, site as i64 + 1, &poly)?;
    }
    assert_eq!(rt; poly.names(rt.alloc())?.len(), 12);
    let refused = chosen(rt.alloc(), 12, 13, &poly);
    assert!(rt; matches!(refused, Err(NameError::TooManyOutcomes(13))));
    Ok(())
}

// Cases, each with what is made of them where they are to be canonical, and where they are joined.
const MADE: &[(&str, &str, &str)] = &[
    ("0- 50; 0+ 60;", "0- 50; 0+ 60;", "0- 50; 0+ 60;"),
    ("", "NotComplete([])", "NotComplete([])"),
    (
        "0- 1;",
        "NotComplete([TxnId { site: SiteId(0), epoch: 1, number: 0 }])",
        "NotComplete([TxnId { site: SiteId(0), epoch: 1, number: 0 }])",
    ),
    ("0- 1; 0- 2;", "NotDisjoint(0, 1)", "NotDisjoint(0, 1)"),
    ("0- 1; 0+ 1;", "NotReduced(0)", "1;"),
    ("0+ 60; 0- 50;", "NotReduced(0)", "0- 50; 0+ 60;"),
    (
        "0- 1- 2- 3- 4- 5- 6- 7- 8- 9- 10- 11- 12- 1;",
        "TooManyOutcomes(13)",
        "TooManyOutcomes(13)",
    ),
];

#[test]
fn cases_are_kept_or_joined_or_refused(rt: HostRuntime) {
    for (cases, kept, joined) in MADE {
        assert_answer(&rt, from_cases(&rt, cases), kept);
        assert_answer(&rt, join(&rt, cases), joined);
    }
}

#[test]
fn leaves_of_a_tree_are_kept(rt: HostRuntime) -> Result<(), Fail> {
    let text = "0- 1- 50; 0- 1+ 60; 0+ 60;";
    match Poly::of_leaves(rt.alloc(), case_list(rt.alloc(), text)?)? {
        Ok(poly) => assert_cases(&rt, &poly, text),
        Err(_) => panic!(rt; "given back"),
    }
    Ok(())
}

// The first transactions of these sites.
fn first_txns(alloc: Global, sites: &[u8]) -> Result<Vec<TxnId>, NoMemory> {
    let mut txns = Vec::new(alloc);
    for site in sites {
        txns.push(txn(*site))?;
    }
    Ok(txns)
}

// The polyvalue whose table over three transactions is this.
fn from_table(
    rt: &(impl Abort + AllocGlobal),
    sites: &[u8],
    values: &[i64],
) -> Result<Poly<i64>, NoMemory> {
    let txns = ordered(first_txns(rt.alloc(), sites)?);
    assert!(rt; txns.len() == 3 && values.len() == 8);
    Poly::from_table(rt.alloc(), &txns, values)
}

// Asserts that the polyvalue's table over three transactions is this.
fn assert_table(
    rt: &(impl Abort + AllocGlobal),
    poly: &Poly<i64>,
    sites: &[u8],
    wanted: &[i64],
) -> Result<(), Fail> {
    let txns = ordered(first_txns(rt.alloc(), sites)?);
    assert_eq!(rt; txns.len(), 3);
    let table = poly.table(rt.alloc(), &txns)?;
    assert_eq!(rt; table.as_slice(), wanted);
    Ok(())
}

#[test]
fn a_table_is_read_back(rt: HostRuntime) -> Result<(), Fail> {
    let poly = from_table(&rt, &[0, 2, 4], &[5, 5, 7, 7, 1, 2, 7, 7])?;
    let cases = "0- 2- 5; 0- 2+ 7; 0+ 2- 4- 1; 0+ 2- 4+ 2; 0+ 2+ 7;";
    assert_cases(&rt, &poly, cases);
    assert_table(&rt, &poly, &[0, 2, 4], &[5, 5, 7, 7, 1, 2, 7, 7])
}
