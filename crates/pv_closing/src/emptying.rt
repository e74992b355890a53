// Rings are emptied by visits, on one thread.
ghost use Rattle.std.specs.Prelude.{◌≡◌, false, All};
ghost use Rattle.pv_cell.specs.Visits.{Visits};
ghost use Rattle.pv_closing.specs.Closing.{GoOn, GoesOn, IsQuiet, IsWhole};

use pv_cell::{SiteBox, Visit, boxes_keep_their_course, boxes_stay_the_same};
use pv_disk::Log;
use std::sync::Wait;

/// So often each site ticks when the rings were emptied: at the third tick a request is refused that waits for an answer which was lost.
const TICKS: u32 = 3;

/// [`TICKS`] times, each site ticks once, in order, and the rings are emptied.
pub(crate) fn tick_and_empty<R: Wait, L: Log>(rt: &R, boxes: &mut Vec<SiteBox<L>>)
    requires whole { All (IsWhole L.model) boxes.old.items }
    requires quiet { All (IsQuiet L.model) boxes.old.items }
    ensures on { GoOn L.model boxes.old.items boxes.new.items }
    ensures quiet { All (IsQuiet L.model) boxes.new.items }
{
    boxes_stay_the_same::<L>();
    for _ in 0..TICKS {
        tick_all(boxes);
        empty(rt, boxes);
    }
}

/// Empties the rings: visits the boxes in order, round after round, until each visit of a round finds nothing or a box that is worn.
pub(crate) fn empty<R: Wait, L: Log>(rt: &R, boxes: &mut Vec<SiteBox<L>>)
    requires { All (IsWhole L.model) boxes.old.items }
    ensures on { GoOn L.model boxes.old.items boxes.new.items }
    ensures quiet { All (IsQuiet L.model) boxes.new.items }
{
    boxes_stay_the_same::<L>();
    for _ in rt.forever() {
        if !visit_all(boxes) {
            return;
        }
    }
    unreachable!()
}

// Visits each box once, in order, and tells whether one of the visits found anything.
fn visit_all<L: Log>(boxes: &mut Vec<SiteBox<L>>) -> bool
    requires { All (IsWhole L.model) boxes.old.items }
    ensures on { GoOn L.model boxes.old.items boxes.new.items }
    ensures quiet { result ≡ false → All (IsQuiet L.model) boxes.new.items }
{
    boxes_stay_the_same::<L>();
    let mut found = false;
    for at in 0..boxes.len() {
        found = visit(&mut boxes[at], found);
    }
    found
}

// Visits the box, and tells whether this visit or one before found anything.
fn visit<L: Log>(one: &mut SiteBox<L>, before: bool) -> bool
    requires { IsWhole L.model one.old }
    ensures on { GoesOn L.model one.old one.new }
    ensures before { result ≡ false → before ≡ false }
    ensures quiet { result ≡ false → IsQuiet L.model one.new }
{
    match visit_once(one) {
        Visit::Idle => before,
        Visit::Worn => before,
        Visit::Took | Visit::Lost | Visit::Stray => true,
    }
}

// Visits the box.
fn visit_once<L: Log>(one: &mut SiteBox<L>) -> Visit
    requires { IsWhole L.model one.old }
    ensures on { GoesOn L.model one.old one.new }
    ensures visits { Visits L.model one.old one.new result }
{
    boxes_keep_their_course::<L>();
    boxes_stay_the_same::<L>();
    one.visit()
}

// Each site ticks once, in order.
fn tick_all<L: Log>(boxes: &mut Vec<SiteBox<L>>)
    requires { All (IsWhole L.model) boxes.old.items }
    ensures { GoOn L.model boxes.old.items boxes.new.items }
{
    boxes_stay_the_same::<L>();
    for at in 0..boxes.len() {
        tick(&mut boxes[at]);
    }
}

// The site of the box ticks.
fn tick<L: Log>(one: &mut SiteBox<L>)
    requires { IsWhole L.model one.old }
    ensures { GoesOn L.model one.old one.new }
{
    boxes_keep_their_course::<L>();
    boxes_stay_the_same::<L>();
    one.tick();
}
