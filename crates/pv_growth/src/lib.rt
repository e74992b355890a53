//! Whether a site may go on with another configuration: one whose catalog has grown.
#![tactic(auto)]

ghost use Rattle.std.specs.Prelude.{◌≡◌, ◌↔◌, ◌<◌, ◌≤◌, ℕ, true, length, slice_get};
ghost use Rattle.pv_growth.specs.Grows.{AnswersGrowth, ReadsConfig};
ghost use Rattle.pv_law_growth.specs.Growth.{HasGrown};

mod fault;

pub use fault::ConfigFault;
use pv_base::{Catalog, ItemId, MAX_INPUT};
use pv_script::{ScriptError, read_schedule};
use std::alloc::Global;

/// Whether a site that was opened with the one configuration may be opened with the other from now on: the later one declares the same sites, the same items in
/// their order and perhaps more behind them, and no lower a limit of journals. All that the site's records show of an item stays as it was then.
///
/// [`ConfigFault`] has the causes for which a text is no configuration. The one before is looked at first. Takes time in proportion to both texts.
pub fn config_grows(alloc: Global, before: &[u8], later: &[u8]) -> Result<bool, ConfigFault>
    ensures { AnswersGrowth before.now later.now result }
{
    let before = read_config(alloc, before)?;
    let later = read_config(alloc, later)?;
    Ok(has_grown(&before, &later))
}

// The catalog that a configuration declares.
fn read_config(alloc: Global, config: &[u8]) -> Result<Catalog, ConfigFault>
    ensures { ReadsConfig config.now result }
{
    if config.len() as u64 > MAX_INPUT {
        return Err(ConfigFault::TooLong);
    }
    let schedule = match read_schedule(alloc, config) {
        Ok(schedule) => schedule,
        Err(ScriptError::Malformed { line, cause }) => {
            return Err(ConfigFault::Malformed { line, cause });
        }
        Err(ScriptError::NoMemory) => return Err(ConfigFault::NoMemory),
    };
    if !schedule.events.is_empty() {
        return Err(ConfigFault::HasEvents);
    }
    Ok(schedule.catalog)
}

// Whether the later catalog has grown from the one before.
fn has_grown(before: &Catalog, later: &Catalog) -> bool
    ensures { (result ≡ true) ↔ HasGrown before.now later.now }
{
    if later.sites() != before.sites() {
        return false;
    }
    if later.journal() < before.journal() {
        return false;
    }
    if later.len() < before.len() {
        return false;
    }
    has_items_of(before, later)
}

// Whether the later catalog has the items of the one before, at their places.
fn has_items_of(before: &Catalog, later: &Catalog) -> bool
    requires { length before.now.items ≤ length later.now.items }
    ensures { (result ≡ true)
        ↔ ((k : ℕ) → k < length before.now.items → slice_get later.now.items k ≡ slice_get before.now.items k) }
{
    for number in 0..before.len() {
        if !is_same_item(before, later, ItemId(number)) {
            return false;
        }
    }
    true
}

// Whether the item of this number is the same in both catalogs.
fn is_same_item(before: &Catalog, later: &Catalog, item: ItemId) -> bool
    requires there { item.0 < length before.now.items }
    requires stays { item.0 < length later.now.items }
    ensures { (result ≡ true) ↔ (slice_get later.now.items item.0 ≡ slice_get before.now.items item.0) }
{
    if later.name(item) != before.name(item) {
        return false;
    }
    if later.site_of(item) != before.site_of(item) {
        return false;
    }
    if later.declared(item) != before.declared(item) {
        return false;
    }
    true
}
