// The closing round, on one thread.
ghost use Rattle.std.specs.Prelude.{ℕ, ◌<◌, All, OnOk, get_or, length};
ghost use Rattle.pv_opening.specs.Opening.{IsRead};
ghost use Rattle.pv_closing.specs.Boxes.{IsClosedBox};
ghost use Rattle.pv_closing.specs.Closing.{GoOn, IsQuiet};
ghost use Rattle.pv_closing.specs.Ended.{AskOn};
ghost use Rattle.pv_closing.specs.Standing.{HaveAsked, StandTogether};

use crate::asking::ask_all;
use crate::emptying::{empty, tick_and_empty};
use crate::ended::Ended;
use crate::lines::place_of;
use pv_base::NoMemory;
use pv_cell::{SiteBox, boxes_stay_the_same};
use pv_disk::Log;
use pv_opening::live_scripts_are_small;
use pv_script::LiveScript;
use std::alloc::Global;
use std::sync::Wait;

/// Does what is left when all threads have ended.
///
/// All rings are emptied by visits in the order of sites, until each visit of a round is idle or worn. Then, three times, each site ticks once, in order, and the rings are
/// emptied again. Last, for each client in order, each of its requests that wasn't asked for is asked for, where the box of its site isn't worn, the rings are emptied, and
/// where the history then has no line for it, the three ticks are made again.
///
/// Where there is no memory this ends on the way: the boxes and the clients have gone on, and more may be left to do.
pub fn close_round<R: Wait, L: Log>(
    rt: &R,
    alloc: Global,
    script: &LiveScript,
    boxes: &mut Vec<SiteBox<L>>,
    clients: &mut Vec<Ended>,
) -> Result<(), NoMemory>
    requires script { IsRead script.now }
    requires standing { StandTogether L.model script.now boxes.old.items clients.old.items }
    ensures on { GoOn L.model boxes.old.items boxes.new.items }
    ensures asks { AskOn clients.old.items clients.new.items }
    ensures standing { OnOk result (StandTogether L.model script.now boxes.new.items clients.new.items) }
    ensures closed { OnOk result ((n : ℕ) (any : SiteBox L) → n < length boxes.new.items → IsClosedBox L.model script.now.catalog n (get_or boxes.new.items n any)) }
    ensures quiet { OnOk result (All (IsQuiet L.model) boxes.new.items) }
    ensures asked { OnOk result (HaveAsked boxes.new.items script.now.clients.items clients.new.items) }
{
    boxes_stay_the_same::<L>();
    live_scripts_are_small();
    empty(rt, boxes);
    tick_and_empty(rt, boxes);
    for at in 0..script.clients.len() {
        let site = script.clients[at].site.0 as usize;
        let place = place_of(&script.clients, at);
        ask_all(rt, alloc, boxes, site, place, &mut clients[at])?;
    }
    Ok(())
}
