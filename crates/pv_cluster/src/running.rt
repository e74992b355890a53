// A live run.
ghost use Rattle.std.specs.Prelude.{◌≤◌, All, IfOk};
ghost use Rattle.pv_law_histories.specs.Fitting.{CanAllBeDone, FitTogether};
ghost use Rattle.pv_rings.specs.Rings.{Each};
ghost use Rattle.pv_site.specs.SiteState.{setup_of};
ghost use Rattle.pv_cell.specs.Together.{histories_of};
ghost use Rattle.pv_opening.specs.Opened.{FailsBy, plan_in};
ghost use Rattle.pv_opening.specs.Opening.{AreNew, IsRead};
ghost use Rattle.pv_closing.specs.Boxes.{IsClosedBox};
ghost use Rattle.pv_closing.specs.Clients.{AreServed};
ghost use Rattle.pv_cluster.specs.Endings.{AllPassInOrder, AskedForAll, KeptItsLog, NobodyElseAsked};
ghost use Rattle.pv_cluster.specs.declared.running.TheConstants.{MAX_WORKERS};

use crate::closed::Closed;
use crate::ending::{close_all, finish};
use crate::serving::serve_boxes;
use pv_base::NoMemory;
use pv_cell::{boxes_keep_their_course, boxes_stay_the_same};
use pv_closing::boxes_stand_on;
use pv_crew::Gate;
use pv_disk::Log;
use pv_opening::open_all;
use pv_script::LiveScript;
use pv_site::Site;
use std::alloc::Global;
use std::sync::Wait;
use std::thread::Threads;

/// How many workers may serve the sites.
pub const MAX_WORKERS: u32 = 16;

/// Runs a live script, which was read from a text, over these sites: the sites of its catalog, in order, each opened on a log in which nothing was found.
///
/// Each site is in a box, to which rings go from each site and from its clients. `workers` threads go round the boxes and visit each while they hold its turn, and each
/// client asks for what its script says in a thread of its own, the next thing after the answer to the one before. The gate is told of each visit. When all have ended,
/// the rings are emptied on one thread, the sites tick, and clients ask for what they have left. Then each client gets its lines from its site's history, as
/// [`ClientWhat`](crate::ClientWhat) says.
///
/// - The histories of the boxes fit together: their merge is one run of the world, whatever the threads did. All that was asked for can run.
/// - Messages pass between sites in order, each as often as the plan of the script says, less what was lost on the way.
/// - There is a box for each site, in order. Where its site is up, the site is as the box's history leaves it; where it is down, the history leaves it down too, and its
///   log's count of faults rose in this run.
/// - Each client has one line for each request of its script, in order. Its site's box took all these requests from the client's ring, in order, or is worn. Those that stand
///   in the site's history stand there each once and in order, and nobody else's do.
///
/// That threads visit and ask before the round that closes the run, that a client waits for its answer, that the gate is told, that all rings are emptied, and that sites
/// tick at the end, and how often, no clause says. Without memory the sites are gone, with their logs. The call waits for threads that it made, and takes as long as they
/// do.
pub fn run<T: Threads + Wait + Sync, L: Log + Send, G: Gate + Sync>(
    rt: &T,
    alloc: Global,
    script: &LiveScript,
    sites: Vec<Site<L>>,
    workers: u32,
    gate: &G,
) -> Result<Closed<L>, NoMemory>
    requires script { IsRead script.now }
    requires sites { AreNew L.model script.now.catalog sites.items }
    requires workers { (1 ≤ workers) × (workers ≤ MAX_WORKERS) }
    ensures fit { IfOk result (λ closed. FitTogether (setup_of script.now.catalog) (histories_of closed.boxes.items)) }
    ensures done { IfOk result (λ closed. CanAllBeDone script.now.catalog (histories_of closed.boxes.items)) }
    ensures passed { IfOk result (λ closed. AllPassInOrder script.now.catalog closed.boxes.items) }
    ensures plans { IfOk result (λ closed. All (FailsBy (plan_in script.now)) closed.boxes.items) }
    ensures boxes { IfOk result (λ closed. Each (λ n site box. IsClosedBox L.model script.now.catalog n box × KeptItsLog L.model site box.site) sites.items closed.boxes.items) }
    ensures asked { IfOk result (λ closed. AskedForAll script.now.clients.items closed.boxes.items) }
    ensures nobody { IfOk result (λ closed. NobodyElseAsked script.now.clients.items closed.boxes.items) }
    ensures clients { IfOk result (λ closed. AreServed closed.boxes.items script.now.clients.items closed.clients.items) }
{
    boxes_keep_their_course::<L>();
    boxes_stay_the_same::<L>();
    boxes_stand_on::<L>();
    // There is a site, and there are no more than turns can be made for.
    script.catalog.sites();
    let opened = open_all(alloc, script, sites)?;
    let (boxes, clients) = serve_boxes(rt, alloc, opened.boxes, workers, opened.clients, gate)?;
    let mut boxes = boxes;
    let mut clients = clients;
    close_all(rt, alloc, script, &mut boxes, &mut clients)?;
    let closed = finish(alloc, script, boxes)?;
    Ok(closed)
}
