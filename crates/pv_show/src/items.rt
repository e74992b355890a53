// The items of a site, as its records show them.
ghost use Rattle.std.specs.Prelude.{◌≡◌, ◌<◌, ◌++◌, ◌==◌, [], Some, length, slice_get, if◌then◌else◌, IsTrue, OnOk};
ghost use Rattle.pv_base.specs.Catalog.{Item};
ghost use Rattle.pv_protocol.specs.Lock.{is_home};
ghost use Rattle.pv_show.specs.SiteText.{item_text, items_text};

use pv_base::{Catalog, ItemId, NoMemory, SiteId};
use pv_cases::copy_cases;
use pv_report::push_line;
use pv_script::Line;
use pv_store::Store;
use std::alloc::Global;

/// Puts the lines of all items of the store's site after what the buffer holds.
pub(crate) fn push_items(
    alloc: Global,
    catalog: &Catalog,
    site: SiteId,
    store: &Store,
    text: &mut Vec<u8>,
) -> Result<(), NoMemory>
    requires catalog { store.now.catalog ≡ catalog.now }
    requires site { store.now.site ≡ site.0 }
    ensures { OnOk result (text.new.items ≡ text.old.items ++ items_text catalog.now site.0 store.now.records) }
{
    for number in 0..catalog.len() {
        push_if_here(alloc, ItemId(number), catalog, site, store, text)?;
    }
    Ok(())
}

// The line of an item, if it is one of the store's site.
fn push_if_here(
    alloc: Global,
    item: ItemId,
    catalog: &Catalog,
    site: SiteId,
    store: &Store,
    text: &mut Vec<u8>,
) -> Result<(), NoMemory>
    requires catalog { store.now.catalog ≡ catalog.now }
    requires site { store.now.site ≡ site.0 }
    requires item { item.0 < length catalog.now.items }
    ensures { (declared : Item) → slice_get catalog.now.items item.0 ≡ Some declared →
        OnOk result (text.new.items ≡ text.old.items ++ (if declared.site == site.0 then item_text catalog.now store.now.records item.0 else [])) }
{
    if catalog.site_of(item) != site {
        return Ok(());
    }
    push_item(alloc, item, catalog, store, text)
}

// The line of an item of the store's site.
fn push_item(
    alloc: Global,
    item: ItemId,
    catalog: &Catalog,
    store: &Store,
    text: &mut Vec<u8>,
) -> Result<(), NoMemory>
    requires catalog { store.now.catalog ≡ catalog.now }
    requires item { item.0 < length catalog.now.items }
    requires home { IsTrue (is_home store.now.catalog store.now.site item.0) }
    ensures { OnOk result (text.new.items ≡ text.old.items ++ item_text catalog.now store.now.records item.0) }
{
    let cases = copy_cases(alloc, store.show(item).cases())?;
    push_line(text, &Line::Item { item, cases }, catalog)
}
