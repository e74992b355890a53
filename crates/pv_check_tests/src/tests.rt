// Worked programs and their plans, each from its text, over a catalog whose item n is at site n % 3.
use pv_base::{Catalog, CatalogError, MIN_JOURNAL, NoMemory, SiteId};
use pv_check::*;
use pv_parse::parse;
use std::alloc::Global;
use std::process::Abort;
use std::test::Fail;

// Programs that want the first item for themselves and the second with others.
const OF_TWO: &[&str] = &["a := b", "if 1 { if b { return 1 } } else { a := 1 }"];

// What they want: the part's site, the item, and whether for itself.
const TWO_WANTS: &[(u8, u32, bool)] = &[(0, 0, true), (1, 1, false)];

const OF_SIXTEEN: &str = "b := 0 + a + b + c + d + e + f + g + h + i + j + k + l + m + n + o + p";

const OF_SEVENTEEN: &str =
    "b := 0 + a + b + c + d + e + f + g + h + i + j + k + l + m + n + o + p + q";

const SIXTEEN_WANTS: &[(u8, u32, bool)] = &[
    (0, 0, false),
    (0, 3, false),
    (0, 6, false),
    (0, 9, false),
    (0, 12, false),
    (0, 15, false),
    (1, 1, true),
    (1, 4, false),
    (1, 7, false),
    (1, 10, false),
    (1, 13, false),
    (2, 2, false),
    (2, 5, false),
    (2, 8, false),
    (2, 11, false),
    (2, 14, false),
];

// Programs, whether each is a query, and why it is refused.
const REFUSED: &[(&str, bool, CheckError)] = &[
    ("return 1", false, CheckError::NoItem),
    (OF_SEVENTEEN, true, CheckError::TooManyItems(17)),
    ("a := b", true, CheckError::Assigns),
    ("require a", true, CheckError::NoReturn),
];

// the catalog of the items a to q
fn items_to_q(alloc: Global) -> Result<Catalog, CatalogError> {
    let mut catalog = Catalog::new(alloc, 3, MIN_JOURNAL);
    for n in 0..17 {
        catalog.add(&[b'a' + n], SiteId(n % 3), 0)?;
    }
    Ok(catalog)
}

// the plan of the text's program, or why it is refused
fn plan(rt: &(impl Abort + AllocGlobal), text: &str, query: bool) -> Result<Plan, CheckError> {
    let Ok(catalog) = items_to_q(rt.alloc()) else {
        panic!(rt; "no catalog");
    };
    match parse(rt.alloc(), text.as_bytes(), &catalog) {
        Ok(program) => check(rt.alloc(), &program, &catalog, query),
        Err(error) => panic!(rt; "{error}"),
    }
}

// the plan's wants, each with its part's site
fn listed(alloc: Global, plan: &Plan) -> Result<Vec<(u8, u32, bool)>, NoMemory> {
    let mut wants = Vec::new(alloc);
    for part in &plan.parts {
        for want in &part.wants {
            wants.push((part.site.0, want.item.0, want.exclusive))?;
        }
    }
    Ok(wants)
}

// Asserts how many parts the plan has, and its wants.
fn assert_wants(
    rt: &(impl Abort + AllocGlobal),
    plan: &Plan,
    parts: usize,
    expected: &[(u8, u32, bool)],
) -> Result<(), NoMemory> {
    let wants = listed(rt.alloc(), plan)?;
    assert!(rt; plan.parts.len() == parts);
    assert_eq!(rt; wants.as_slice(), expected);
    Ok(())
}

#[test]
fn each_refusal_has_its_cause(rt: HostRuntime) {
    for (text, query, cause) in REFUSED {
        assert_eq!(rt; plan(&rt, text, *query).err(), Some(*cause), "at {text}");
    }
}

#[test]
fn a_plan_has_each_item_at_its_site(rt: HostRuntime) -> Result<(), Fail> {
    for text in OF_TWO {
        let plan = plan(&rt, text, false)?;
        assert_wants(&rt, &plan, 2, TWO_WANTS)?;
        assert_wants(&rt, &plan.copy(rt.alloc())?, 2, TWO_WANTS)?;
    }
    Ok(())
}

#[test]
fn sixteen_items_have_a_plan(rt: HostRuntime) -> Result<(), Fail> {
    let plan = plan(&rt, OF_SIXTEEN, false)?;
    assert_wants(&rt, &plan, 3, SIXTEEN_WANTS)?;
    Ok(())
}
