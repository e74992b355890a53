// A new shelf.
ghost use Rattle.std.specs.Prelude.{◌≡◌, ◌<◌, ◌≤◌, ◌^◌, [], ◌∷◌, All, IfOk, length, vec_len, vec_capacity};
ghost use Rattle.std.specs.List.{AllPairs};
ghost use Rattle.pv_protocol.specs.Outcome.{items_from};
ghost use Rattle.pv_shelf.specs.Opening.{declared_faces, opening_of, sure};
ghost use Rattle.pv_shelf.specs.Part.{Part};
ghost use Rattle.pv_shelf.specs.Shelves.{published, pending, known, seen, items_of};

use crate::face::Face;
use crate::part::ShelfPart;
use crate::reader::ShelfReader;
use crate::rule::{Looks, Published, Tells};
use crate::side::Side;
use crate::view::View;
use crate::writer::ShelfWriter;
use left_right::writer::Writer;
use pv_base::{Catalog, ItemId, NoMemory, SiteId};
use pv_tree::Poly;
use std::alloc::Global;
use std::sync::Wait;

/// A shelf for what this site shows, with so many readers. What is published is what was declared, after no steps. It waits for nobody, since
/// no reader looks yet.
pub fn shelf<R: Wait>(
    rt: &R,
    alloc: Global,
    site: SiteId,
    catalog: &Catalog,
    readers: u32,
) -> Result<(ShelfWriter, Vec<ShelfReader>), NoMemory>
    requires { 0 < readers }
    ensures count { IfOk result (λ made. vec_len made.1 ≡ readers) }
    ensures published { IfOk result (λ made. published made.0 ≡ opening_of site.0 catalog.now.items ∷ []) }
    ensures pending { IfOk result (λ made. pending made.0 ≡ []) }
    ensures readers { IfOk result (λ made. All (λ reader. (seen reader ≡ published made.0)
        × (items_of reader ≡ items_from site.0 0 catalog.now.items)) made.1.items) }
{
    let items = items_of_site(alloc, catalog, site)?;
    let faces = declared_faces(alloc, catalog, site)?;
    let room = Vec::with_capacity(alloc, readers as usize)?;
    let opening = ShelfPart { steps: 0, faces };
    let mut writer = opened(rt, alloc, opening, readers as usize)?;
    match all_readers(&mut writer, &items, room, readers) {
        Ok(readers) => Ok((writer, readers)),
        Err(_) => {
            writer.close(rt, Vec::new(alloc));
            Err(NoMemory)
        }
    }
}

// The writer of a shelf on which this part is published.
fn opened<R: Wait>(
    rt: &R,
    alloc: Global,
    opening: ShelfPart,
    readers: usize,
) -> Result<ShelfWriter, NoMemory>
    requires { (0 < readers) × (readers < 2 ^ 32) }
    ensures published { IfOk result (λ writer. published writer ≡ opening ∷ []) }
    ensures pending { IfOk result (λ writer. pending writer ≡ []) }
    ensures seen { IfOk result (λ writer. known writer ≡ opening ∷ []) }
{
    let (first, second) = (Side::new(alloc), Side::new(alloc));
    let mut writer: Writer<Side, ShelfPart, View, Published> = Writer::new(
        alloc, first, second, readers,
    )?;
    let Ok(()) = writer.append(opening) else {
        writer.take(rt);
        return Err(NoMemory);
    };
    match writer.publish_as::<Looks, R>(rt) {
        (writer, Ok(())) => Ok(ShelfWriter { writer, alloc }),
        (writer, Err(_)) => {
            writer.take(rt);
            Err(NoMemory)
        }
    }
}

// So many readers, in this room.
fn all_readers(
    writer: &mut ShelfWriter,
    items: &[u32],
    room: Vec<ShelfReader>,
    count: u32,
) -> Result<Vec<ShelfReader>, NoMemory>
    requires room { (room.items ≡ []) × (count ≤ vec_capacity room) }
    requires items { AllPairs (λ item later. item < later) items.now }
    requires seen { (opening : Part) × (known writer.old ≡ opening ∷ []) × (opening.steps ≡ 0) × (length opening.faces ≡ length items.now) }
    ensures writer { (published writer.new ≡ published writer.old) × (pending writer.new ≡ pending writer.old) }
    ensures count { IfOk result (λ readers. vec_len readers ≡ count) }
    ensures readers { IfOk result (λ readers. All (λ reader. (seen reader ≡ known writer.old) × (items_of reader ≡ items.now)) readers.items) }
{
    let mut readers = room;
    let mut left = count;
    while left > 0 {
        readers.push_reserved(reader_of(writer, items)?);
        left -= 1;
    }
    Ok(readers)
}

// A reader that has seen what the writer has.
fn reader_of(writer: &mut ShelfWriter, items: &[u32]) -> Result<ShelfReader, NoMemory>
    requires items { AllPairs (λ item later. item < later) items.now }
    requires seen { (opening : Part) × (known writer.old ≡ opening ∷ []) × (opening.steps ≡ 0) × (length opening.faces ≡ length items.now) }
    ensures writer { (published writer.new ≡ published writer.old) × (pending writer.new ≡ pending writer.old) × (known writer.new ≡ known writer.old) }
    ensures reader { IfOk result (λ reader. (seen reader ≡ known writer.old) × (items_of reader ≡ items.now)) }
{
    let alloc = writer.alloc;
    let items = Vec::from_slice(alloc, items)?;
    let mut reader = writer.writer.factory().reader()?;
    reader.learn::<Tells>(writer.writer.tell::<Tells>());
    Ok(ShelfReader {
        reader,
        alloc,
        items,
        steps: 0,
    })
}

/// The numbers of the site's items, ascending.
fn items_of_site(alloc: Global, catalog: &Catalog, site: SiteId) -> Result<Vec<u32>, NoMemory>
    ensures { IfOk result (λ items. items.items ≡ items_from site.0 0 catalog.now.items) }
{
    let mut items = Vec::new(alloc);
    for item in 0..catalog.len() {
        if catalog.site_of(ItemId(item)) == site {
            items.push(item)?;
        }
    }
    Ok(items)
}

/// What the site's items show by what was declared.
fn declared_faces(alloc: Global, catalog: &Catalog, site: SiteId) -> Result<Vec<Face>, NoMemory>
    ensures { IfOk result (λ faces. faces.items ≡ declared_faces site.0 catalog.now.items) }
{
    let mut faces = Vec::new(alloc);
    for item in 0..catalog.len() {
        let item = ItemId(item);
        if catalog.site_of(item) == site {
            faces.push(sure_face(alloc, catalog.declared(item))?)?;
        }
    }
    Ok(faces)
}

/// The face of an item that has this value, whatever comes out.
pub fn sure_face(alloc: Global, value: i64) -> Result<Face, NoMemory>
    ensures { IfOk result (λ face. face ≡ sure value) }
{
    let poly = Poly::sure(alloc, value)?;
    Ok(Face::Cases(poly))
}
