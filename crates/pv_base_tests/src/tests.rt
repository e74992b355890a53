// Worked values, beside what the clauses say of all values; and that calls which want memory have their answer where there is some.
use pv_base::{
    Catalog, CatalogError, HELD_NAMES, ItemId, MAX_JOURNAL, NoMemory, READ_NAMES, SiteId, TxnId,
    is_name, print_txn, push_number, push_txn,
};
use std::process::Abort;
use std::test::Fail;

// Additions to a catalog of two sites that has the item a, with their refusals.
const REFUSED: &[(&str, u8, CatalogError)] = &[
    ("a", 1, CatalogError::NameTaken(ItemId(0))),
    ("a", 2, CatalogError::NameTaken(ItemId(0))),
    ("b", 2, CatalogError::NoSite),
    ("B", 0, CatalogError::BadName),
    ("min", 0, CatalogError::BadName),
];

// Asserts that the catalog declares this of the item.
fn assert_declares(
    rt: &impl Abort,
    catalog: &Catalog,
    item: u32,
    name: &[u8],
    site: u8,
    value: i64,
) {
    assert!(rt; item < catalog.len());
    assert!(rt; catalog.find(name) == Some(ItemId(item)));
    assert!(rt; catalog.name(ItemId(item)) == name);
    assert!(rt; catalog.site_of(ItemId(item)) == SiteId(site));
    assert!(rt; catalog.declared(ItemId(item)) == value);
}

#[test]
fn a_transaction_is_printed_with_dots(rt: HostRuntime) -> Result<(), NoMemory> {
    let first = TxnId {
        site: SiteId(0),
        epoch: 1,
        number: 0,
    };
    let text = print_txn(rt.alloc(), first)?;
    assert_eq!(rt; text.as_slice(), b"0.1.0".as_slice());
    Ok(())
}

#[test]
fn what_is_printed_is_put_after_what_the_buffer_holds(rt: HostRuntime) -> Result<(), Fail> {
    let last = TxnId {
        site: SiteId(15),
        epoch: u32::MAX,
        number: u32::MAX,
    };
    let mut text = b"txn ".to_vec(rt.alloc())?;
    push_txn(&mut text, last)?;
    text.push(b' ')?;
    push_number(&mut text, u64::MAX)?;
    assert_eq!(rt;
        text.as_slice(),
        b"txn 15.4294967295.4294967295 18446744073709551615".as_slice()
    );
    Ok(())
}

#[test]
fn names_have_1_to_16_bytes(rt: HostRuntime) {
    assert!(rt; is_name(b"a_9"));
    assert!(rt; is_name(b"abcdefghijklmnop"));
    assert!(rt; !is_name(b"abcdefghijklmnopq"));
    assert!(rt; !is_name(b""));
    assert!(rt; !is_name(b"_a"));
    assert!(rt; !is_name(b"9"));
    assert!(rt; !is_name(b"certain"));
    assert!(rt; is_name(b"certainly"));
}

#[test]
fn each_refusal_comes_in_its_order(rt: HostRuntime) -> Result<(), CatalogError> {
    let mut catalog = Catalog::new(rt.alloc(), 2, MAX_JOURNAL);
    assert!(rt; catalog.add(b"a", SiteId(0), 100)? == ItemId(0));
    for (name, site, error) in REFUSED {
        assert_eq!(rt; catalog.add(name.as_bytes(), SiteId(*site), 1), Err(*error));
    }
    assert!(rt; catalog.len() == 1);
    assert!(rt; catalog.find(b"b").is_none());
    assert_declares(&rt, &catalog, 0, b"a", 0, 100);
    Ok(())
}

#[test]
fn a_copy_is_equal(rt: HostRuntime) -> Result<(), Fail> {
    let mut catalog = Catalog::new(rt.alloc(), 3, 4096);
    catalog.add(b"left", SiteId(2), i64::MIN)?;
    catalog.add(b"right", SiteId(1), i64::MAX)?;
    let copy = catalog.copy()?;
    assert!(rt; copy.sites() == 3);
    assert!(rt; copy.journal() == 4096);
    assert!(rt; copy.len() == 2);
    assert_declares(&rt, &copy, 0, b"left", 2, i64::MIN);
    assert_declares(&rt, &copy, 1, b"right", 1, i64::MAX);
    Ok(())
}

#[test]
fn the_limits_are_eleven_and_twelve_outcomes(rt: HostRuntime) {
    assert!(rt; READ_NAMES == 11);
    assert!(rt; HELD_NAMES == 12);
}
