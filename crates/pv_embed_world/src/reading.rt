// What is read of texts: a catalog, and the event that a line is.
ghost use Rattle.std.specs.Prelude.{◌≡◌, ◌<◌, ◌≤◌, true, false, length, IfOk};
ghost use Rattle.pv_base.specs.declared.limits.TheConstants.{MAX_INPUT};
ghost use Rattle.pv_protocol.specs.WellFormed.{IsWellFormed};
ghost use Rattle.pv_script.specs.Behind.{with_line};
ghost use Rattle.pv_script.specs.ScheduleView.{event_of};
ghost use Rattle.pv_embed_world.specs.Reading.{IsShort, ReadsCatalog, ReadsEvent};

use crate::WorldFault;
use pv_base::MAX_INPUT;
use pv_law_world::schedules_are_well_formed;
use pv_script::{CatalogText, Event};
use std::alloc::Global;

/// The text, which declares a catalog. Takes time in proportion to it.
pub(crate) fn catalog_in(alloc: Global, text: &[u8]) -> Result<CatalogText, WorldFault>
    ensures { ReadsCatalog text.now result }
{
    if text.len() as u64 > MAX_INPUT {
        return Err(WorldFault::TooLong);
    }
    match CatalogText::read(alloc, text)? {
        Some(declared) => Ok(declared),
        None => Err(WorldFault::HasEvents),
    }
}

/// The event that the line is behind the text that declares the catalog. Takes time in proportion to the line, and in proportion to the text too where the line declares
/// something or is several.
pub(crate) fn event_in(
    alloc: Global,
    declared: &CatalogText,
    line: &[u8],
) -> Result<Event, WorldFault>
    requires { length declared.now.text ≤ MAX_INPUT }
    ensures read { ReadsEvent declared.now.text declared.now.catalog line.now result }
    ensures well { IfOk result (λ event. IsWellFormed declared.now.catalog (event_of event)) }
{
    schedules_are_well_formed();
    if !is_short(declared, line) {
        return Err(WorldFault::TooLong);
    }
    match declared.read_event(alloc, line)? {
        Some(event) => Ok(event),
        None => Err(WorldFault::NotOneEvent),
    }
}

// Whether the text with the line behind it is no longer than an input may be.
#[tactic(auto, using(crate::proofs::ReadingLemmas::length_with_line))]
fn is_short(declared: &CatalogText, line: &[u8]) -> bool
    requires { length declared.now.text ≤ MAX_INPUT }
    ensures short { result ≡ true → IsShort (with_line declared.now.text line.now) }
    ensures long { result ≡ false → MAX_INPUT < length (with_line declared.now.text line.now) }
{
    let room = MAX_INPUT - declared.text().len() as u64;
    (line.len() as u64) < room
}
