// A shelf of one item, which is declared as 7: what a reader finds before and after a publication, and what the shelf gives at its end. Each
// call that wants memory has its answer where there is some.
ghost use Rattle.std.specs.Prelude.{◌≡◌, [], ◌∷◌, IfOk, pos};
ghost use Rattle.std.specs.List.{Contains};
ghost use Rattle.pv_shelf.specs.Log.{steps_of, width_of};
ghost use Rattle.pv_shelf.specs.Shelves.{published, added, items_of};

use pv_base::{Catalog, CatalogError, ItemId, MAX_JOURNAL, SiteId, TxnId};
use pv_shelf::*;
use pv_tree::Poly;
use std::alloc::Global;
use std::sync::Wait;
use std::test::Fail;

const A: ItemId = ItemId(0);

const HERE: SiteId = SiteId(0);

const TXN: TxnId = TxnId {
    site: HERE,
    epoch: 1,
    number: 0,
};

// the catalog of a
fn catalog(alloc: Global) -> Result<Catalog, CatalogError>
    ensures { IfOk result (λ catalog. catalog.items ≡ record { name = 97 ∷ []; site = 0; value = pos 7 } ∷ []) }
{
    let mut catalog = Catalog::new(alloc, 1, MAX_JOURNAL);
    catalog.add(b"a", HERE, 7)?;
    Ok(catalog)
}

// a shelf for it, and its reader
fn opened<R: Wait>(rt: &R, alloc: Global) -> Result<(ShelfWriter, ShelfReader), Fail>
    ensures width { IfOk result (λ made. width_of (published made.0) ≡ 1) }
    ensures steps { IfOk result (λ made. steps_of (added made.0) ≡ 0) }
    ensures item { IfOk result (λ made. Contains (items_of made.1) 0) }
{
    let catalog = catalog(alloc)?;
    let (writer, mut readers) = shelf(rt, alloc, HERE, &catalog, 1)?;
    let reader = readers.pop().unwrap();
    Ok((writer, reader))
}

// What it tells of a after at least so many steps.
fn look(reader: &mut ShelfReader, least: u64) -> Result<Peek, PeekError>
    requires { Contains (items_of reader.old) 0 }
    ensures { Contains (items_of reader.new) 0 }
{
    reader.read(A, least)
}

// After one step a is locked.
fn lock(writer: &mut ShelfWriter) -> bool
    requires width { width_of (published writer.old) ≡ 1 }
    requires steps { steps_of (added writer.old) ≡ 0 }
{
    writer.add(1, &[Face::Locked(TXN)]).is_ok()
}

// How many parts the shelf gives at its end.
fn parts_at_end<R: Wait>(rt: &R, alloc: Global, writer: ShelfWriter, reader: ShelfReader) -> usize {
    let mut readers = Vec::new(alloc);
    let given = readers.push(reader).is_ok();
    let log = writer.close(rt, readers);
    if given { log.parts.len() } else { 0 }
}

#[test]
fn a_look_finds_what_is_published(rt: HostRuntime) -> Result<(), Fail> {
    let alloc = rt.alloc();
    let (mut writer, mut reader) = opened(&rt, alloc)?;
    let added = lock(&mut writer);
    let first = look(&mut reader, 0);
    let behind = look(&mut reader, 1);
    let published = writer.publish(&rt).is_ok();
    let then = look(&mut reader, 1);
    let parts = parts_at_end(&rt, alloc, writer, reader);
    let declared = Peek {
        steps: 0,
        face: Face::Cases(Poly::sure(alloc, 7)?),
    };
    let locked = Peek {
        steps: 1,
        face: Face::Locked(TXN),
    };
    assert!(rt; added && published && parts == 2);
    assert!(rt; first == Ok(declared));
    assert!(rt; behind == Err(PeekError::Behind(0)));
    assert!(rt; then == Ok(locked));
    Ok(())
}
