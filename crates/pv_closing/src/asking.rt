// What clients ask for when their threads have ended.
ghost use Rattle.std.specs.Prelude.{◌≡◌, ◌⊎◌, ◌<◌, [], All, OnOk, get_or, length};
ghost use Rattle.pv_cell.specs.Box.{IsWorn};
ghost use Rattle.pv_closing.specs.Closing.{GoOn, IsQuiet, IsWhole};
ghost use Rattle.pv_closing.specs.Ended.{AsksOn};

use crate::emptying::{empty, tick_and_empty};
use crate::ended::Ended;
use pv_base::NoMemory;
use pv_cell::{SiteBox, boxes_stay_the_same};
use pv_disk::Log;
use pv_told::has_line;
use std::alloc::Global;
use std::sync::Wait;

/// Asks for all that the client has left, in order, unless the box of its site is worn: the rings are emptied after each request, and where the history then has no line
/// for it, the sites tick and the rings are emptied again. The client is the one at this place among the site's own.
pub(crate) fn ask_all<R: Wait, L: Log>(
    rt: &R,
    alloc: Global,
    boxes: &mut Vec<SiteBox<L>>,
    site: usize,
    place: u32,
    ended: &mut Ended,
) -> Result<(), NoMemory>
    requires whole { All (IsWhole L.model) boxes.old.items }
    requires quiet { All (IsQuiet L.model) boxes.old.items }
    requires site { site < length boxes.old.items }
    ensures on { GoOn L.model boxes.old.items boxes.new.items }
    ensures quiet { All (IsQuiet L.model) boxes.new.items }
    ensures asks { AsksOn ended.old ended.new }
    ensures asked { OnOk result ((ended.new.left.items ≡ []) ⊎ ((any : SiteBox L) → IsWorn (get_or boxes.new.items site any))) }
{
    boxes_stay_the_same::<L>();
    for _ in rt.forever() {
        if ended.left.is_empty() {
            return Ok(());
        }
        if boxes[site].is_worn() {
            return Ok(());
        }
        let from = boxes[site].history().len();
        let posted = ended.post();
        empty(rt, boxes);
        tick_for(rt, alloc, boxes, site, from, place, posted)?;
    }
    unreachable!()
}

// The sites tick where the entries from this one on have no line for what was posted, if anything was.
fn tick_for<R: Wait, L: Log>(
    rt: &R,
    alloc: Global,
    boxes: &mut Vec<SiteBox<L>>,
    site: usize,
    from: usize,
    place: u32,
    posted: Option<u32>,
) -> Result<(), NoMemory>
    requires whole { All (IsWhole L.model) boxes.old.items }
    requires quiet { All (IsQuiet L.model) boxes.old.items }
    requires site { site < length boxes.old.items }
    ensures on { GoOn L.model boxes.old.items boxes.new.items }
    ensures quiet { All (IsQuiet L.model) boxes.new.items }
{
    boxes_stay_the_same::<L>();
    let Some(number) = posted else {
        return Ok(());
    };
    if is_told(alloc, &boxes[site], from, place, number)? {
        return Ok(());
    }
    tick_and_empty(rt, boxes);
    Ok(())
}

// Whether the entries from this one on have a line for the request of this number of the client at this place. Only entries since it was posted can have one, so the
// whole history needn't be read each time.
fn is_told<L: Log>(
    alloc: Global,
    of: &SiteBox<L>,
    from: usize,
    place: u32,
    number: u32,
) -> Result<bool, NoMemory> {
    let history = of.history();
    let (_, later) = history.split_at(from.min(history.len()));
    has_line(alloc, later, place, number)
}
