// The log of one site upgraded, and the line that tells of it.
ghost use Rattle.std.specs.Prelude.{◌≡◌, ◌<◌, ◌≤◌, ◌++◌, List, ℕ, IfOk, OnOk};
ghost use Rattle.pv_base.specs.declared.limits.TheConstants.{MIN_JOURNAL, MAX_JOURNAL};
ghost use Rattle.pv_show.specs.Bays.{IsAtRest, RisesAtBayFault};
ghost use Rattle.pv_upgrade.specs.UpgradeText.{upgrade_text};
ghost use Rattle.pv_upgrade.specs.Upgrading.{KeepsDisks, UpgradesSite};

use crate::log::upgrade_disk;
use crate::told::Upgrade;
use pv_base::{NoMemory, SiteId};
use pv_disk::{Bay, BayError};
use pv_show::{ShowError, line_of_word, line_with_number};
use std::alloc::Global;

/// Upgrades the log on the disk of a site, which may have this length at most, and puts the line that tells of it after what the buffer holds.
pub(crate) fn upgrade_site<B: Bay>(
    alloc: Global,
    site: SiteId,
    limit: u64,
    bay: &mut B,
    text: &mut Vec<u8>,
) -> Result<(), ShowError>
    requires least { MIN_JOURNAL ≤ limit }
    requires most { limit ≤ MAX_JOURNAL }
    requires rest { IsAtRest B.model bay.old }
    ensures text { OnOk result ((part : List ℕ) × (text.new.items ≡ text.old.items ++ part)
        × UpgradesSite B.model B.D.model limit bay.old bay.new site.0 part) }
    ensures faults { RisesAtBayFault B.model bay.old bay.new result }
    ensures keeps { (sites : ℕ) (first : B) → site.0 < sites → KeepsDisks B.model B.D.model sites first bay.old → KeepsDisks B.model B.D.model sites first bay.new }
    ensures rest { IsAtRest B.model bay.new }
{
    let disk = match bay.disk(site) {
        Ok(disk) => disk,
        Err(BayError::Failed) => return Err(ShowError::BayFault),
        Err(BayError::NoMemory) => return Err(ShowError::NoMemory),
    };
    let (disk, told) = upgrade_disk(alloc, disk, limit);
    // Also a disk that can't be upgraded goes back.
    bay.back(site, disk);
    push_told(alloc, site, told?, text)?;
    Ok(())
}

// Puts the line that tells what came of the upgrade of a site's log after what the buffer holds.
fn push_told(alloc: Global, site: SiteId, told: Upgrade, text: &mut Vec<u8>) -> Result<(), NoMemory>
    ensures { OnOk result (text.new.items ≡ text.old.items ++ upgrade_text site.0 told) }
{
    let line = line_of(alloc, site, told)?;
    text.extend_from_slice(&line)?;
    Ok(())
}

// That line.
fn line_of(alloc: Global, site: SiteId, told: Upgrade) -> Result<Vec<u8>, NoMemory>
    ensures { IfOk result (λ line. line.items ≡ upgrade_text site.0 told) }
{
    match told {
        Upgrade::Upgraded(count) => line_with_number(alloc, site, b"upgraded", count),
        Upgrade::Full(length) => line_with_number(alloc, site, b"full", length),
        Upgrade::Spent => line_of_word(alloc, site, b"spent"),
        Upgrade::NotOurs(place) => line_with_number(alloc, site, b"not-ours", place),
        Upgrade::BadRecord(index) => line_with_number(alloc, site, b"bad-record", index),
        Upgrade::Failed => line_of_word(alloc, site, b"fault"),
    }
}
