// Rows of things, one of each site.
ghost use Rattle.std.specs.Prelude.{◌≡◌, ◌<◌, [], All, IfOk, OnErr, OnOk, length};
ghost use Rattle.pv_links.specs.Rows.{AddsTo};
ghost use Rattle.pv_rings.specs.Rings.{Each};

use pv_base::NoMemory;
use std::alloc::Global;

/// So many rows without anything in them.
pub fn new_rows<A: Drop>(alloc: Global, count: usize) -> Result<Vec<Vec<A>>, NoMemory>
    ensures count { IfOk result (λ rows. length rows.items ≡ count) }
    ensures empty { IfOk result (λ rows. All (λ row. row.items ≡ []) rows.items) }
{
    let mut rows = Vec::new(alloc);
    for _ in 0..count {
        rows.push(Vec::new(alloc))?;
    }
    Ok(rows)
}

/// Adds one at the end of this row. Without memory each row has what it had, and the one is gone.
pub fn push_to<A: Drop>(rows: &mut Vec<Vec<A>>, row: usize, one: A) -> Result<(), NoMemory>
    requires { row < length rows.old.items }
    ensures added { OnOk result (AddsTo row one rows.old.items rows.new.items) }
    ensures unchanged { OnErr result (Each (λ _ before after. after.items ≡ before.items) rows.old.items rows.new.items) }
{
    rows[row].push(one)?;
    Ok(())
}
