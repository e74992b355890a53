// A script run live by two workers, over two disks in memory.
ghost use Rattle.std.specs.Prelude.{◌≡◌, ℕ, false, IfOk, map};
ghost use Rattle.pv_cluster_tests.specs.Merging.{CanBeMerged};
ghost use Rattle.pv_disk.specs.MemBay.{mem_bay};
ghost use Rattle.pv_opening.specs.Opening.{AreNew, IsRead};

use pv_base::NoMemory;
use pv_cell::SiteBox;
use pv_ckpt::CkptLog;
use pv_cluster::{ClientLine, Closed, Gate, run};
use pv_disk::{Log, MemBay, MemDisk};
use pv_history::Entry;
use pv_launch::launch;
use pv_script::LiveScript;
use pv_site::Site;
use std::alloc::Global;
use std::sync::Wait;
use std::test::Fail;
use std::thread::Threads;

/// What is left of a live run.
#[derive(Drop)]
pub(crate) struct Lived<L: Log> {
    /// The histories of the sites, in order.
    pub(crate) histories: Vec<Vec<Entry>>,
    /// Their logs.
    pub(crate) logs: Vec<L>,
    /// What each client heard.
    pub(crate) clients: Vec<Vec<ClientLine>>,
}

/// What is left when the script, which has at most two sites, was run.
pub(crate) fn launch_and_live<T: Threads + Wait + Sync, G: Gate + Sync>(
    rt: &T,
    alloc: Global,
    script: &LiveScript,
    gate: &G,
) -> Result<Lived<CkptLog<MemDisk>>, Fail>
    requires script { IsRead script.now }
    ensures { IfOk result (λ lived. CanBeMerged script.now.catalog lived.histories.items) }
{
    let mut bay = bay_of(alloc)?;
    match launch(alloc, &script.catalog, &mut bay) {
        Ok(sites) => Ok(live(rt, alloc, script, sites, gate)?),
        Err(why) => Err(why.into()),
    }
}

// A bay with two empty disks.
fn bay_of(alloc: Global) -> Result<MemBay, Fail>
    ensures { IfOk result (λ bay. (n : ℕ) → (mem_bay.berth bay n).is_out ≡ false) }
{
    let disks = vec![in alloc; MemDisk::new(alloc), MemDisk::new(alloc)]?;
    let bay = MemBay::new(disks)?;
    Ok(bay)
}

// What is left when the script was run over these sites.
fn live<T: Threads + Wait + Sync, L: Log + Send, G: Gate + Sync>(
    rt: &T,
    alloc: Global,
    script: &LiveScript,
    sites: Vec<Site<L>>,
    gate: &G,
) -> Result<Lived<L>, NoMemory>
    requires script { IsRead script.now }
    requires sites { AreNew L.model script.now.catalog sites.items }
    ensures { IfOk result (λ lived. CanBeMerged script.now.catalog lived.histories.items) }
{
    let closed = run(rt, alloc, script, sites, 2, gate)?;
    lived_of(alloc, closed)
}

// What is left of the boxes.
fn lived_of<L: Log>(alloc: Global, closed: Closed<L>) -> Result<Lived<L>, NoMemory>
    ensures { IfOk result (λ lived. lived.histories.items ≡ map (λ one. one.history) closed.boxes.items) }
{
    let Closed { boxes, clients } = closed;
    let (histories, logs) = parts_of(alloc, boxes)?;
    Ok(Lived {
        histories,
        logs,
        clients,
    })
}

// The histories and the logs.
fn parts_of<L: Log>(
    alloc: Global,
    boxes: Vec<SiteBox<L>>,
) -> Result<(Vec<Vec<Entry>>, Vec<L>), NoMemory>
    ensures { IfOk result (λ parts. parts.0.items ≡ map (λ one. one.history) boxes.items) }
{
    let mut histories = Vec::new(alloc);
    let mut logs = Vec::new(alloc);
    for one in boxes {
        let (site, history) = one.into_parts();
        histories.push(history)?;
        logs.push(site.close())?;
    }
    Ok((histories, logs))
}
