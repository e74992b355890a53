// Boxes go to their turns, workers visit them there while clients ask, and boxes and clients come back. A turn is a lock that holds a box (pv_turn): a worker takes the box
// out, visits it and puts it back. Here boxes are put into what a turn holds (`Shown`), served, and taken out again.
ghost use Rattle.std.specs.Prelude.{◌≡◌, ◌<◌, ◌≤◌, [], All, IfOk, vec_len};
ghost use Rattle.pv_base.specs.declared.limits.TheConstants.{MAX_SITES};
ghost use Rattle.pv_closing.specs.Closing.{IsWhole};
ghost use Rattle.pv_cluster.specs.Serving.{IsLeftOf, WentOn};
ghost use Rattle.pv_post.specs.Ends.{posted};
ghost use Rattle.pv_rings.specs.Rings.{Each};

use pv_base::NoMemory;
use pv_cell::{SiteBox, boxes_stay_the_same};
use pv_closing::Ended;
use pv_crew::{Client, Gate, serve};
use pv_disk::Log;
use pv_mail::Answer;
use pv_script::Request;
use pv_shown::{Shown, shown_cross_threads};
use std::alloc::Global;
use std::sync::Wait;
use std::thread::Threads;

/// So many workers visit the boxes, each in its turn, while the clients ask. Boxes and clients come back when all have ended, in order.
pub(crate) fn serve_boxes<T: Threads + Wait + Sync, L: Log + Send, G: Gate + Sync>(
    rt: &T,
    alloc: Global,
    boxes: Vec<SiteBox<L>>,
    workers: u32,
    clients: Vec<Client<Request, Answer>>,
    gate: &G,
) -> Result<(Vec<SiteBox<L>>, Vec<Ended>), NoMemory>
    requires whole { All (IsWhole L.model) boxes.items }
    requires count { (0 < vec_len boxes) × (vec_len boxes ≤ MAX_SITES) }
    requires workers { 0 < workers }
    requires clients { All (λ client. posted client.asks ≡ []) clients.items }
    ensures boxes { IfOk result (λ served. Each (λ _ one other. WentOn L.model one other) boxes.items served.0.items) }
    ensures clients { IfOk result (λ served. Each (λ _ client ended. IsLeftOf client ended) clients.items served.1.items) }
{
    shown_cross_threads::<L>();
    let turns = to_turns(alloc, boxes)?;
    let (turns, clients) = serve(rt, alloc, turns, workers, clients, gate)?;
    let boxes = from_turns(alloc, turns)?;
    let clients = all_left(alloc, clients)?;
    Ok((boxes, clients))
}

// Each box comes to its turn.
fn to_turns<L: Log>(alloc: Global, boxes: Vec<SiteBox<L>>) -> Result<Vec<Shown<L>>, NoMemory>
    requires { All (IsWhole L.model) boxes.items }
    ensures { IfOk result (λ turns. Each (λ _ one turn. turn ≡ (one, one)) boxes.items turns.items) }
{
    boxes_stay_the_same::<L>();
    let mut turns = Vec::new(alloc);
    for one in boxes {
        let turn = Shown::new(one);
        turns.push(turn)?;
    }
    Ok(turns)
}

// Each box comes from its turn.
fn from_turns<L: Log>(alloc: Global, turns: Vec<Shown<L>>) -> Result<Vec<SiteBox<L>>, NoMemory>
    ensures { IfOk result (λ boxes. Each (λ _ turn one. WentOn L.model turn.1 one) turns.items boxes.items) }
{
    let mut boxes = Vec::new(alloc);
    for turn in turns {
        let one = turn.into_box();
        boxes.push(one)?;
    }
    Ok(boxes)
}

// What the closing round needs of each client.
fn all_left(alloc: Global, clients: Vec<Client<Request, Answer>>) -> Result<Vec<Ended>, NoMemory>
    ensures { IfOk result (λ left. Each (λ _ client ended. IsLeftOf client ended) clients.items left.items) }
{
    let mut left = Vec::new(alloc);
    for client in clients {
        let ended = left_of(client);
        left.push(ended)?;
    }
    Ok(left)
}

// What the closing round needs of a client whose thread has ended: what it hasn't asked for, and the ring by which it asks.
fn left_of(client: Client<Request, Answer>) -> Ended
    ensures { IsLeftOf client result }
{
    Ended {
        left: client.left,
        asks: client.asks,
        script: client.script,
    }
}
