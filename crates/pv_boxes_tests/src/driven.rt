// Boxes that are visited in a drawn order, on one thread.
ghost use Rattle.std.specs.Prelude.{◌<◌, All, IfOk};
ghost use Rattle.pv_cell.specs.Box.{IsBox};
ghost use Rattle.pv_opening.specs.Opening.{AreNew, IsRead};

use pv_base::NoMemory;
use pv_cell::SiteBox;
use pv_crew::Client;
use pv_disk::Log;
use pv_history::Entry;
use pv_mail::Answer;
use pv_opening::open_all;
use pv_script::{LiveScript, Request};
use pv_site::Site;
use std::alloc::Global;

/// What is left of boxes.
#[derive(Drop)]
pub(crate) struct Driven<L: Log> {
    /// The logs of their sites, in order.
    pub(crate) logs: Vec<L>,
    /// Their histories.
    pub(crate) histories: Vec<Vec<Entry>>,
}

/// What is left of the boxes of the script, over these sites, after so many visits and ticks, as they are drawn from this number on. The clients have asked for all that they
/// ask for before.
pub(crate) fn drive_boxes<L: Log>(
    alloc: Global,
    script: &LiveScript,
    sites: Vec<Site<L>>,
    seed: u64,
    visits: u32,
) -> Result<Driven<L>, NoMemory>
    requires script { IsRead script.now }
    requires sites { AreNew L.model script.now.catalog sites.items }
{
    let mut boxes = opened(alloc, script, sites)?;
    visit_drawn(&mut boxes, seed, visits);
    left_of(alloc, boxes)
}

// The boxes of the script, over these sites, whose clients have asked.
fn opened<L: Log>(
    alloc: Global,
    script: &LiveScript,
    sites: Vec<Site<L>>,
) -> Result<Vec<SiteBox<L>>, NoMemory>
    requires script { IsRead script.now }
    requires sites { AreNew L.model script.now.catalog sites.items }
    ensures { IfOk result (λ boxes. All (IsBox L.model) boxes.items) }
{
    let all = open_all(alloc, script, sites)?;
    for client in all.clients {
        ask_all(client);
    }
    Ok(all.boxes)
}

// The client asks for all that it asks for.
fn ask_all(client: Client<Request, Answer>) {
    let mut left = client.left;
    let mut asks = client.asks;
    left.reverse();
    for request in left {
        asks.post(request);
    }
}

// So many visits and ticks.
fn visit_drawn<L: Log>(boxes: &mut Vec<SiteBox<L>>, seed: u64, visits: u32)
    requires { All (IsBox L.model) boxes.old.items }
{
    let mut draws = Draws { state: seed };
    for _ in 0..visits {
        let ticks = draws.below(32) == 0;
        let at = draws.below(4);
        turn(boxes, at as usize, ticks);
    }
}

// A visit to the box of this number, or a tick of its site.
fn turn<L: Log>(boxes: &mut Vec<SiteBox<L>>, at: usize, ticks: bool)
    requires { All (IsBox L.model) boxes.old.items }
    ensures { All (IsBox L.model) boxes.new.items }
{
    if at >= boxes.len() {
        return;
    }
    take(&mut boxes[at], ticks);
}

// A visit to the box, or a tick of its site.
fn take<L: Log>(cell: &mut SiteBox<L>, ticks: bool)
    requires { IsBox L.model cell.old }
    ensures { IsBox L.model cell.new }
{
    if ticks {
        cell.tick();
    } else {
        cell.visit();
    }
}

// What is left of the boxes.
fn left_of<L: Log>(alloc: Global, boxes: Vec<SiteBox<L>>) -> Result<Driven<L>, NoMemory> {
    let mut logs = Vec::new(alloc);
    let mut histories = Vec::new(alloc);
    for cell in boxes {
        let (site, history) = cell.into_parts();
        logs.push(site.close())?;
        histories.push(history)?;
    }
    Ok(Driven { logs, histories })
}

// Numbers that look as if they were drawn: a linear congruence (Knuth, 1969).
#[derive(Drop)]
struct Draws {
    state: u64,
}

impl Draws {
    // A number below this one.
    fn below(&mut self, bound: u32) -> u32
        requires { 0 < bound }
        ensures { result < bound }
    {
        self.state = self
            .state
            .wrapping_mul(6_364_136_223_846_793_005)
            .wrapping_add(1_442_695_040_888_963_407);
        (self.state >> 33) as u32 % bound
    }
}
