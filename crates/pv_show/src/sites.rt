// Site after site, what the disks of a bay hold.
ghost use Rattle.std.specs.Prelude.{◌≡◌, ◌≤◌, IfOk};
ghost use Rattle.pv_base.specs.declared.limits.TheConstants.{MAX_SITES};
ghost use Rattle.pv_show.specs.Bays.{IsAtRest, OnlyReadsDisks, RisesAtBayFault};
ghost use Rattle.pv_show.specs.Showing.{ShowsAll};

use crate::ShowError;
use crate::site::show_site;
use pv_base::{Catalog, SiteId};
use pv_disk::Bay;
use std::alloc::Global;

/// What the disks of all sites of the catalog hold, as text, in the order of the sites. No disk of the bay may be out, and none is afterwards.
///
/// Each disk is handed out, only read, and handed back before the next one is asked for. A disk that fails has a line that says so, and the
/// others are still shown. Takes time in proportion to the logs, and to the sites times the items.
///
/// - [`ShowError::BayFault`]: the bay failed to hand a disk out, and counted that.
/// - [`ShowError::NoMemory`]: there was no memory.
pub fn show<B: Bay>(alloc: Global, catalog: &Catalog, bay: &mut B) -> Result<Vec<u8>, ShowError>
    requires rest { IsAtRest B.model bay.old }
    ensures text { IfOk result (λ text. ShowsAll B.model B.D.model catalog.now bay.old bay.new text.items) }
    ensures faults { RisesAtBayFault B.model bay.old bay.new result }

    // Also where nothing is shown, no disk is asked for but those of the catalog's sites, none is changed, and none is left out.
    ensures reads { OnlyReadsDisks B.model B.D.model catalog.now.sites bay.old bay.new }
    ensures few { catalog.now.sites ≤ MAX_SITES }
    ensures rest { IsAtRest B.model bay.new }
{
    let mut text = Vec::new(alloc);
    for site in 0..catalog.sites() {
        show_site(alloc, SiteId(site), catalog, bay, &mut text)?;
    }
    Ok(text)
}
