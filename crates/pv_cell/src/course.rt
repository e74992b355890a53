// How a box goes on, visit by visit.
ghost use Rattle.std.specs.Prelude.{ℕ, ◌<◌, List, get_or, length};
ghost use Rattle.pv_base.specs.Catalog.{Declared};
ghost use Rattle.pv_cell.specs.Box.{IsBox};
ghost use Rattle.pv_cell.specs.Course.{Became, HasCourse, IsNew};
ghost use Rattle.pv_cell.specs.Lending.{AreStill, with_ends};
ghost use Rattle.pv_cell.specs.Together.{AreAllBoxes, PassesInOrder, histories_of};
ghost use Rattle.pv_cell.specs.Told.{TellsItsHistory};
ghost use Rattle.pv_cell.specs.Visits.{TakesTick, Visits};
ghost use Rattle.pv_law_histories.specs.Fitting.{FitTogether};
ghost use Rattle.pv_mail.specs.declared.ends.Ends.{Ends};
ghost use Rattle.pv_site.specs.SiteState.{setup_of};

use crate::{SiteBox, Visit};
use pv_disk::Log;
use pv_law_histories::histories_grow;
use pv_law_passing::{sites_go_by_rings, sites_go_on};

/// The history of a box is whole: from its opening on, through any visits and ticks, it is all that its site did (`HasCourse`). Its entries are the site's own
/// steps, stamped, from the start on; what they post was offered to the rings, in order and in bytes, of which each ring took in some, in order, and nothing that its plan loses;
/// and what they took in was taken from the rings, each site's messages and each client's requests in order, each at most as often as it counts. The function does
/// nothing: it states a law, of a new box and of each call.
pub fn boxes_keep_their_course<L: Log>()
    ensures new { (box : SiteBox L) → IsNew box → HasCourse box }
    ensures visit { (old new : SiteBox L) (visit : Visit) → IsBox L.model old → Visits L.model old new visit → HasCourse old → HasCourse new }
    ensures tick { (old new : SiteBox L) (visit : Visit) → IsBox L.model old → TakesTick L.model old new visit → HasCourse old → HasCourse new }
{
    histories_grow();
    sites_go_on();
}

/// What a box told its clients is by its history: each line is one that an entry tells that client of that request, with as many entries as the answer says.
/// So it is from the box's opening on, through any visits and ticks. The function does nothing: it states a law, of a new box and of each call.
pub fn boxes_tell_their_history<L: Log>()
    ensures new { (box : SiteBox L) → IsNew box → TellsItsHistory box }
    ensures visit { (old new : SiteBox L) (visit : Visit) → Visits L.model old new visit → TellsItsHistory old → TellsItsHistory new }
    ensures tick { (old new : SiteBox L) (visit : Visit) → TakesTick L.model old new visit → TellsItsHistory old → TellsItsHistory new }
{}

/// The histories of the boxes of all sites fit together, where each ring gave a beginning of what it took: so their merge is one run of the world. The function does
/// nothing: it states a law.
pub fn boxes_fit_together<L: Log>()
    ensures { (catalog : Declared) (boxes : List (SiteBox L)) → AreAllBoxes catalog boxes → FitTogether (setup_of catalog) (histories_of boxes) }
{
    sites_go_by_rings();
}

/// What the history of a site has of another one's messages is what that one's history posts to it, in order, less what the ring between them left out, all that its plan
/// loses among it (why the rest was isn't said), and what the site's box lost for want of memory or passed over; and each at most as often as the plan says (`PassesInOrder`). So it is where each ring gave a
/// beginning of what it took. The function does nothing: it states a law.
pub fn boxes_pass_messages_in_order<L: Log>()
    ensures { (catalog : Declared) (boxes : List (SiteBox L)) → AreAllBoxes catalog boxes → (from to : ℕ) (any : SiteBox L) → from < length boxes → to < length boxes →
        PassesInOrder (setup_of catalog) from to (get_or boxes from any) (get_or boxes to any) }
{}

/// A box stays the box that it was: the same site with the same rings, whose history only grows, through any visits and ticks; and whether its log tells what it
/// holds stays as it was. Where the site was up and is down its log's count of faults rose, which never falls. The function does nothing: it states a law, of each call
/// and of several in a row.
pub fn boxes_stay_the_same<L: Log>()
    ensures none { (box : SiteBox L) → Became L.model box box }
    ensures visit { (old new : SiteBox L) (visit : Visit) → Visits L.model old new visit → Became L.model old new }
    ensures tick { (old new : SiteBox L) (visit : Visit) → TakesTick L.model old new visit → Became L.model old new }
    ensures both { (old mid new : SiteBox L) → Became L.model old mid → Became L.model mid new → Became L.model old new }
{}

/// A box whose ends were lent and came back with nothing posted on them and nothing taken from them (`AreStill`) can be called as before, and all that is so of a box at any
/// time is so of it. The function does nothing: it states a law.
pub fn boxes_lend_their_ends<L: Log>()
    ensures is_box { (box : SiteBox L) (ends : Ends) → AreStill box.ends ends → IsBox L.model box → IsBox L.model (with_ends box ends) }
    ensures course { (box : SiteBox L) (ends : Ends) → AreStill box.ends ends → HasCourse box → HasCourse (with_ends box ends) }
    ensures told { (box : SiteBox L) (ends : Ends) → AreStill box.ends ends → TellsItsHistory box → TellsItsHistory (with_ends box ends) }
    ensures same { (box : SiteBox L) (ends : Ends) → AreStill box.ends ends → Became L.model box (with_ends box ends) }
{}
