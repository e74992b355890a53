// The values of a site without records.
ghost use Rattle.std.specs.Prelude.{◌≡◌, ◌<◌, [], length, IfOk};
ghost use Rattle.pv_store.specs.Held.{AreShown, value_here};

use crate::named::Named;
use pv_base::{Catalog, ItemId, NoMemory, SiteId};
use pv_tree::Poly;
use std::alloc::Global;

/// By item, the declared value of each item of the site.
pub(crate) fn declared_values(
    alloc: Global,
    catalog: &Catalog,
    site: SiteId,
) -> Result<Vec<Option<Named>>, NoMemory>
    ensures { IfOk result (λ values. AreShown catalog.now site.0 [] [] values.items) }
{
    let mut values = Vec::with_capacity(alloc, catalog.len() as usize)?;
    for item in 0..catalog.len() {
        values.push(declared_value(alloc, catalog, site, ItemId(item))?)?;
    }
    Ok(values)
}

// The declared value of the item, if the item is the site's.
fn declared_value(
    alloc: Global,
    catalog: &Catalog,
    site: SiteId,
    item: ItemId,
) -> Result<Option<Named>, NoMemory>
    requires { item.0 < length catalog.now.items }
    ensures { IfOk result (λ value. value ≡ value_here catalog.now site.0 [] [] item.0) }
{
    if catalog.site_of(item) != site {
        return Ok(None);
    }
    let value = Poly::sure(alloc, catalog.declared(item))?;
    let named = Named::of(alloc, value)?;
    Ok(Some(named))
}
