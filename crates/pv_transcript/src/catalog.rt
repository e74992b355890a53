// The lines of a catalog.
ghost use Rattle.std.specs.Prelude.{◌≡◌, ◌<◌, ◌++◌, OnErr, OnOk, Some, length, slice_get};
ghost use Rattle.std.specs.List.{flat_map};
ghost use Rattle.pv_base.specs.Catalog.{Item};
ghost use Rattle.pv_report.specs.StillHeld.{StillHeld};
ghost use Rattle.pv_transcript.specs.Begins.{Begins};
ghost use Rattle.pv_transcript.specs.ScheduleText.{catalog_text, item_line};

use crate::pieces::{push_bytes, push_numbered, push_signed};
use pv_base::{Catalog, ItemId, NoMemory, SiteId};

/// Puts the lines of a catalog after what the buffer holds: how many sites there are, the limit of each journal, and the items in order of declaration.
#[tactic(auto, using(crate::proofs::HeldLemmas::beginnings), unfolding(crate::specs::ScheduleText::catalog_text))]
pub fn push_catalog(text: &mut Vec<u8>, catalog: &Catalog) -> Result<(), NoMemory>
    ensures text { OnOk result (text.new.items ≡ text.old.items ++ catalog_text catalog.now) }
    ensures held { OnErr result (StillHeld text.old.items text.new.items) }
    ensures begun { OnErr result (Begins text.new.items (text.old.items ++ catalog_text catalog.now)) }
{
    push_numbered(text, b"sites", u64::from(catalog.sites()))?;
    push_bytes(text, b"\n")?;
    push_numbered(text, b"journal", catalog.journal())?;
    push_bytes(text, b"\n")?;
    push_items(text, catalog)
}

// The lines of the items.
fn push_items(text: &mut Vec<u8>, catalog: &Catalog) -> Result<(), NoMemory>
    ensures text { OnOk result (text.new.items ≡ text.old.items ++ flat_map item_line catalog.now.items) }
    ensures held { OnErr result (StillHeld text.old.items text.new.items) }
    ensures begun { OnErr result (Begins text.new.items (text.old.items ++ flat_map item_line catalog.now.items)) }
{
    for number in 0..catalog.len() {
        push_item(text, ItemId(number), catalog)?;
    }
    Ok(())
}

// The line of an item.
fn push_item(text: &mut Vec<u8>, item: ItemId, catalog: &Catalog) -> Result<(), NoMemory>
    requires { item.0 < length catalog.now.items }
    ensures text { (declared : Item) → slice_get catalog.now.items item.0 ≡ Some declared → OnOk result (text.new.items ≡ text.old.items ++ item_line declared) }
    ensures held { OnErr result (StillHeld text.old.items text.new.items) }
    ensures begun { (declared : Item) → slice_get catalog.now.items item.0 ≡ Some declared → OnErr result (Begins text.new.items (text.old.items ++ item_line declared)) }
{
    push_declared(
        text,
        catalog.name(item),
        catalog.site_of(item),
        catalog.declared(item),
    )
}

// The line of an item that was declared so.
#[tactic(auto, using(crate::proofs::HeldLemmas::beginnings), unfolding(crate::specs::ScheduleText::item_line))]
fn push_declared(text: &mut Vec<u8>, name: &[u8], site: SiteId, value: i64) -> Result<(), NoMemory>
    ensures text { let declared : Item = record { name = name.now; site = site.0; value = value } in OnOk result (text.new.items ≡ text.old.items ++ item_line declared) }
    ensures held { OnErr result (StillHeld text.old.items text.new.items) }
    ensures begun { let declared : Item = record { name = name.now; site = site.0; value = value } in OnErr result (Begins text.new.items (text.old.items ++ item_line declared)) }
{
    push_bytes(text, b"item ")?;
    push_bytes(text, name)?;
    push_numbered(text, b"", u64::from(site.0))?;
    push_bytes(text, b" ")?;
    push_signed(text, value)?;
    push_bytes(text, b"\n")
}
