// Whether two catalogs declare the same.
ghost use Rattle.std.specs.Prelude.{◌≡◌, ◌<◌, ◌↔◌, true, length, slice_get};

use pv_base::{Catalog, ItemId};

/// Whether both declare the same. Takes time in proportion to the items.
pub(crate) fn is_same(one: &Catalog, other: &Catalog) -> bool
    ensures { (result ≡ true) ↔ (one.now ≡ other.now) }
{
    if one.sites() != other.sites() {
        return false;
    }
    if one.journal() != other.journal() {
        return false;
    }
    if one.len() != other.len() {
        return false;
    }
    has_same_items(one, other)
}

// Whether both, which have as many items, have the same.
fn has_same_items(one: &Catalog, other: &Catalog) -> bool
    requires { length one.now.items ≡ length other.now.items }
    ensures { (result ≡ true) ↔ (one.now.items ≡ other.now.items) }
{
    for item in 0..one.len() {
        if !is_same_item(one, other, ItemId(item)) {
            return false;
        }
    }
    true
}

// Whether the item of this number is the same in both.
fn is_same_item(one: &Catalog, other: &Catalog, item: ItemId) -> bool
    requires one { item.0 < length one.now.items }
    requires other { item.0 < length other.now.items }
    ensures { (result ≡ true) ↔ (slice_get one.now.items item.0 ≡ slice_get other.now.items item.0) }
{
    if one.name(item) != other.name(item) {
        return false;
    }
    if one.site_of(item) != other.site_of(item) {
        return false;
    }
    if one.declared(item) != other.declared(item) {
        return false;
    }
    true
}
