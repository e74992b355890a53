// Site after site, the disks of a bay upgraded.
ghost use Rattle.std.specs.Prelude.{◌≡◌, ◌≤◌, IfOk};
ghost use Rattle.pv_base.specs.declared.limits.TheConstants.{MAX_SITES};
ghost use Rattle.pv_show.specs.Bays.{IsAtRest, RisesAtBayFault};
ghost use Rattle.pv_upgrade.specs.Upgrading.{KeepsDisks, UpgradesAll};

use crate::site::upgrade_site;
use pv_base::{Catalog, SiteId};
use pv_disk::Bay;
use pv_show::ShowError;
use std::alloc::Global;

/// Upgrades the logs on the disks of all sites of the catalog, and tells what came of each, as text, in the order of the sites. No disk of the bay may be out, and none is
/// afterwards.
///
/// Each disk is handed out, upgraded, and handed back before the next one is asked for. Its old spellings are replaced by what is written today, all of them at one moment, and
/// it is left as it is where none stand in its log, where the log would be too long, and where it can't be read. A disk that fails has a line that says so, and the others are
/// still upgraded. At each moment the records of every log are as before. Takes time in proportion to the logs.
///
/// - [`ShowError::BayFault`]: the bay failed to hand a disk out, and counted that.
/// - [`ShowError::NoMemory`]: there was no memory.
pub fn upgrade<B: Bay>(alloc: Global, catalog: &Catalog, bay: &mut B) -> Result<Vec<u8>, ShowError>
    requires rest { IsAtRest B.model bay.old }
    ensures text { IfOk result (λ text. UpgradesAll B.model B.D.model catalog.now bay.old bay.new text.items) }
    ensures faults { RisesAtBayFault B.model bay.old bay.new result }

    // However it ends, no disk is asked for but those of the catalog's sites, each keeps its records at each moment, and none is left out.
    ensures keeps { KeepsDisks B.model B.D.model catalog.now.sites bay.old bay.new }
    ensures few { catalog.now.sites ≤ MAX_SITES }
    ensures rest { IsAtRest B.model bay.new }
{
    let limit = catalog.journal();
    let mut text = Vec::new(alloc);
    for site in 0..catalog.sites() {
        upgrade_site(alloc, SiteId(site), limit, bay, &mut text)?;
    }
    Ok(text)
}
