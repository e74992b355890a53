// The catalog of the tests, and contents written in hexadecimal. The item a is declared as 7 at the first of two sites, and b as 8 at the other one.
ghost use Rattle.std.specs.Prelude.{◌≡◌, ◌≤◌, length, IfOk};
ghost use Rattle.pv_base.specs.declared.limits.TheConstants.{MAX_JOURNAL, MIN_JOURNAL};

use pv_base::{Catalog, CatalogError, SiteId};
use std::alloc::{AllocFailed, Global};

pub(crate) const HERE: SiteId = SiteId(0);

pub(crate) const THERE: SiteId = SiteId(1);

// the catalog of a and b
pub(crate) fn catalog(alloc: Global, journal: u64) -> Result<Catalog, CatalogError>
    requires least { MIN_JOURNAL ≤ journal }
    requires most { journal ≤ MAX_JOURNAL }
    ensures sites { IfOk result (λ catalog. catalog.sites ≡ 2) }
    ensures journal { IfOk result (λ catalog. catalog.journal ≡ journal) }
    ensures items { IfOk result (λ catalog. length catalog.items ≡ 2) }
{
    let mut catalog = Catalog::new(alloc, 2, journal);
    catalog.add(b"a", HERE, 7)?;
    catalog.add(b"b", SiteId(1), 8)?;
    Ok(catalog)
}

// the value of a hexadecimal digit
fn digit(text: u8) -> Option<u8> {
    match text {
        b'0'..=b'9' => Some(text - b'0'),
        b'a'..=b'f' => Some(text - b'a' + 10),
        _ => None,
    }
}

// the bytes of a text of hexadecimal digits, two for each; blanks don't count
pub(crate) fn bytes_of(alloc: Global, text: &str) -> Result<Vec<u8>, AllocFailed<u8>> {
    let mut bytes = Vec::new(alloc);
    let mut high = None;
    for byte in text.as_bytes() {
        let Some(low) = digit(*byte) else { continue };
        match high {
            None => high = Some(low),
            Some(first) => {
                bytes.push(u8::wrapping_mul(first, 16).wrapping_add(low))?;
                high = None;
            }
        }
    }
    Ok(bytes)
}
