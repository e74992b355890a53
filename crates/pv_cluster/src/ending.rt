// How a live run ends, when workers and clients have ended.
ghost use Rattle.std.specs.Prelude.{IfOk, OnOk};
ghost use Rattle.pv_closing.specs.Standing.{StandTogether};
ghost use Rattle.pv_cluster.specs.Endings.{IsClosedRun};
ghost use Rattle.pv_cluster.specs.Looks.{AreClosed};
ghost use Rattle.pv_cluster.specs.Serving.{AllBecame};
ghost use Rattle.pv_opening.specs.Opening.{IsRead};

use crate::closed::Closed;
use crate::looking::{look_at_clients, look_at_sites};
use pv_base::NoMemory;
use pv_cell::{
    SiteBox, boxes_fit_together, boxes_lend_their_ends, boxes_pass_messages_in_order,
    boxes_stay_the_same,
};
use pv_closing::{Ended, boxes_stand_on, close_round, lines_of};
use pv_disk::Log;
use pv_opening::live_scripts_are_small;
use pv_script::LiveScript;
use std::alloc::Global;
use std::sync::Wait;

/// Makes the closing round, and then looks at the ring by which each client asks. Where one of these rings still holds something, and the box of its site isn't worn, both are
/// done again. (It doesn't come to that, but no clause says so.)
pub(crate) fn close_all<R: Wait, L: Log>(
    rt: &R,
    alloc: Global,
    script: &LiveScript,
    boxes: &mut Vec<SiteBox<L>>,
    clients: &mut Vec<Ended>,
) -> Result<(), NoMemory>
    requires script { IsRead script.now }
    requires standing { StandTogether L.model script.now boxes.old.items clients.old.items }
    ensures on { OnOk result (AllBecame L.model boxes.old.items boxes.new.items) }
    ensures closed { OnOk result (AreClosed L.model script.now boxes.new.items) }
{
    boxes_lend_their_ends::<L>();
    boxes_stay_the_same::<L>();
    boxes_stand_on::<L>();
    for _ in rt.forever() {
        close_round(rt, alloc, script, boxes, clients)?;
        if look_at_clients(script, boxes, clients) {
            return Ok(());
        }
    }
    unreachable!()
}

/// Looks at the rings between sites, and reads the lines of each client's requests off the histories.
pub(crate) fn finish<L: Log>(
    alloc: Global,
    script: &LiveScript,
    boxes: Vec<SiteBox<L>>,
) -> Result<Closed<L>, NoMemory>
    requires script { IsRead script.now }
    requires closed { AreClosed L.model script.now boxes.items }
    ensures closed { IfOk result (IsClosedRun L.model script.now) }
    ensures on { IfOk result (λ closed. AllBecame L.model boxes.items closed.boxes.items) }
{
    live_scripts_are_small();
    boxes_lend_their_ends::<L>();
    boxes_stand_on::<L>();
    boxes_fit_together::<L>();
    boxes_pass_messages_in_order::<L>();
    let mut boxes = boxes;
    look_at_sites(&mut boxes);
    let clients = lines_of(alloc, script, &boxes)?;
    Ok(Closed { boxes, clients })
}
