// The map in which a catalog keeps its items: each name with what is declared of it, in order of declaration.
ghost use Rattle.std.specs.Prelude.{◌≡◌, ◌<◌, None, Some, [], ◌∷◌, ◌++◌, length, map, slice_get, IfOk, IfSome, OnErr, OnOk};
ghost use Rattle.pv_base.specs.Catalog.{Item, place_of};
ghost use Rattle.pv_base.specs.CatalogView.{item_of, items_of};

use crate::SiteId;
use indexmap::IndexMap;
use std::alloc::AllocError;

/// Where an item is and what it is declared to hold.
#[derive(Clone, Copy, Debug, PartialEq, Eq)]
pub(crate) struct Declaration {
    /// The site that owns the item.
    pub(crate) site: SiteId,
    /// The value that the item has at first.
    pub(crate) value: i64,
}

/// The items by name.
pub(crate) type Entries = IndexMap<Vec<u8>, Declaration>;

/// How many items there are.
pub(crate) fn count_of(items: &Entries) -> usize
    ensures { result ≡ length (items_of items.now.entries) }
{
    items.len()
}

/// The place of the item of that name, or `None` where no item has the name.
pub(crate) fn find_item(items: &Entries, name: &[u8]) -> Option<usize>
    ensures place { result ≡ place_of name.now (items_of items.now.entries) }
    ensures within { IfSome result (λ place. place < length items.now.entries) }
{
    items.get_index_of(name)
}

/// The name of the item at a place.
pub(crate) fn name_at(items: &Entries, place: usize) -> &[u8]
    requires { place < length items.now.entries }
    ensures { slice_get (map (λ item. item.name) (items_of items.now.entries)) place ≡ Some result.now }
{
    let (name, _) = items.get_index(place).unwrap();
    name.as_slice()
}

/// What is declared of the item at a place.
pub(crate) fn declaration_at(items: &Entries, place: usize) -> Declaration
    requires { place < length items.now.entries }
    ensures site { slice_get (map (λ item. item.site) (items_of items.now.entries)) place ≡ Some result.site.0 }
    ensures value { slice_get (map (λ item. item.value) (items_of items.now.entries)) place ≡ Some result.value }
{
    let (_, declaration) = items.get_index(place).unwrap();
    *declaration
}

/// Adds an item under a new name, after the others. After an error the items are as they were.
pub(crate) fn push_item(
    items: &mut Entries,
    name: Vec<u8>,
    declaration: Declaration,
) -> Result<(), AllocError>
    requires { place_of name.items (items_of items.old.entries) ≡ None }
    ensures added { let item = item_of (name, declaration) in
        OnOk result (items_of items.new.entries ≡ items_of items.old.entries ++ item ∷ []) }
    ensures unchanged { OnErr result (items.new.entries ≡ items.old.entries) }
{
    items.insert(name, declaration)?;
    Ok(())
}

/// The same items, in memory of their own.
pub(crate) fn copy_items(items: &Entries) -> Result<Entries, AllocError>
    ensures { IfOk result (λ copy. items_of copy.entries ≡ items_of items.now.entries) }
{
    items.clone()
}
