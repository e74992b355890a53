// A run of the sites that were launched, and its text.
ghost use Rattle.std.specs.Prelude.{◌≡◌, ℕ, ◌<◌, ◌≤◌, true, IfOk, List, [], length, map, vec_capacity};
ghost use Rattle.pv_base.specs.declared.limits.TheConstants.{MAX_SITES};
ghost use Rattle.pv_cell.specs.declared.site_box.SiteBox.{SiteBox};
ghost use Rattle.pv_ckpt.specs.CkptModel.{ckpt_model};
ghost use Rattle.pv_cluster.specs.declared.running.TheConstants.{MAX_WORKERS};
ghost use Rattle.pv_launch.specs.Launching.{AreLaunched};
ghost use Rattle.pv_live.specs.Brought.{AreBroughtBack};
ghost use Rattle.pv_live.specs.Lived.{IsElseUnchanged, Lives};
ghost use Rattle.pv_opening.specs.Opening.{IsRead};
ghost use Rattle.pv_script.specs.LiveView.{live_script_of};

use crate::transcribing::transcribed;
use pv_base::{NoMemory, SiteId};
use pv_cell::SiteBox;
use pv_ckpt::CkptLog;
use pv_cluster::{Closed, run};
use pv_crew::Gate;
use pv_disk::Bay;
use pv_history::Entry;
use pv_launch::launched_sites_are_numbered;
use pv_law_histories::{histories_have_one_merge, merged_histories_are_a_run};
use pv_opening::live_scripts_are_small;
use pv_script::LiveScript;
use pv_site::Site;
use pv_told::told_lines_stand_in_histories;
use std::alloc::Global;
use std::sync::Wait;
use std::thread::Threads;

/// Runs the script over these sites, which were launched over the bay's disks, hands each disk back, and answers the text of the run. Where there is no memory for the run
/// itself its disks are gone. The list is for the histories of the run, so that none is made once that is over.
pub(crate) fn text_of_run<T: Threads + Wait + Sync, B: Bay, G: Gate + Sync>(
    rt: &T,
    alloc: Global,
    workers: u32,
    script: &LiveScript,
    sites: Vec<Site<CkptLog<B::D>>>,
    histories: Vec<Vec<Entry>>,
    bay: &mut B,
    gate: &G,
) -> Result<Vec<u8>, NoMemory>
where
    B::D: Send,
    requires script { IsRead script.now }
    requires workers { (1 ≤ workers) × (workers ≤ MAX_WORKERS) }
    requires none { histories.items ≡ [] }
    requires room { script.now.catalog.sites ≤ vec_capacity histories }
    requires launched { (before : B) × AreLaunched B.model B.D.model script.now.catalog before bay.old sites.items }
    ensures lives { (before : B) → AreLaunched B.model B.D.model script.now.catalog before bay.old sites.items →
        IfOk result (λ text. Lives B.model B.D.model (live_script_of script.now) before bay.new text.items) }
    ensures unchanged { (before : B) → AreLaunched B.model B.D.model script.now.catalog before bay.old sites.items →
        IsElseUnchanged B.model B.D.model (live_script_of script.now) before bay.new }
{
    histories_have_one_merge();
    merged_histories_are_a_run();
    told_lines_stand_in_histories();
    launched_sites_are_numbered::<B>();
    live_scripts_are_small();
    // Called for what its contract says: there are few sites.
    script.catalog.sites();
    let Closed { boxes, clients } = run(rt, alloc, script, sites, workers, gate)?;
    let histories = bring_back(histories, boxes, bay);
    transcribed(alloc, script, &histories, &clients)
}

// The histories of the boxes, in order, put into this list, when the disk of each was handed back. It wants no memory.
fn bring_back<B: Bay>(
    histories: Vec<Vec<Entry>>,
    boxes: Vec<SiteBox<CkptLog<B::D>>>,
    bay: &mut B,
) -> Vec<Vec<Entry>>
    requires none { histories.items ≡ [] }
    requires room { length boxes.items ≤ vec_capacity histories }
    requires few { length boxes.items ≤ MAX_SITES }
    requires out { (n : ℕ) → n < length boxes.items → (B.model.berth bay.old n).is_out ≡ true }
    ensures back { AreBroughtBack B.model B.D.model bay.old bay.new boxes.items }
    ensures histories { result.items ≡ map (λ box. box.history) boxes.items }
{
    let mut histories = histories;
    let mut number = 0;
    for one in boxes {
        let (site, history) = one.into_parts();
        bay.back(SiteId(number), site.close().close());
        histories.push_reserved(history);
        number += 1;
    }
    histories
}
