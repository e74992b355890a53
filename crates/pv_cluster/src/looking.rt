// When all has ended one thread has both ends of each ring. `In::beside` over both changes nothing; its contract says that what was taken from the ring is a beginning of what
// was posted on it. Between sites it is called for that alone; of a client's ring its answer counts too: 0 where nothing is left.
ghost use Rattle.std.specs.Prelude.{◌≡◌, ◌⊎◌, true, ℕ, ◌<◌, get_or, length};
ghost use mathlib.Core.List.{IsPrefix};
ghost use Rattle.pv_cell.specs.Together.{Brought};
ghost use Rattle.pv_closing.specs.Standing.{StandTogether};
ghost use Rattle.pv_cluster.specs.Looks.{AllLooked, AllStill, AreBroughtTo, AreLinked, IsLooked, IsStill, StandOnceTo, WasTaken, WereTakenTo};
ghost use Rattle.pv_opening.specs.Opened.{AsksBox, HasRing};
ghost use Rattle.pv_opening.specs.Opening.{IsRead};
ghost use Rattle.pv_post.specs.Ends.{posted, taken};
ghost use Rattle.pv_post.specs.declared.inlet.In.{In};
ghost use Rattle.pv_script.specs.declared.live.Request.{Request};

use pv_cell::{SiteBox, boxes_lend_their_ends};
use pv_closing::{Ended, boxes_stand_on, place_of};
use pv_disk::Log;
use pv_opening::live_scripts_are_small;
use pv_script::LiveScript;

/// Looks at each ring between sites.
pub(crate) fn look_at_sites<L: Log>(boxes: &mut Vec<SiteBox<L>>)
    requires { AreLinked boxes.old.items }
    ensures still { AllStill boxes.old.items boxes.new.items }
    ensures brought { AreBroughtTo (length boxes.old.items) boxes.old.items }
{
    let count = boxes.len();
    for at in 0..count {
        look_at_site(boxes, at);
    }
}

// Looks at the rings between this site and those before it, and at its own.
fn look_at_site<L: Log>(boxes: &mut Vec<SiteBox<L>>, at: usize)
    requires linked { AreLinked boxes.old.items }
    requires at { at < length boxes.old.items }
    ensures still { AllStill boxes.old.items boxes.new.items }
    ensures own { (any : SiteBox L) → Brought at at (get_or boxes.old.items at any) (get_or boxes.old.items at any) }
    ensures on { (k : ℕ) (any : SiteBox L) → k < at → Brought k at (get_or boxes.old.items k any) (get_or boxes.old.items at any) }
    ensures back { (k : ℕ) (any : SiteBox L) → k < at → Brought at k (get_or boxes.old.items at any) (get_or boxes.old.items k any) }
{
    look_at_own(&mut boxes[at], at);
    for before in 0..at {
        look_between(boxes, before, at);
    }
}

// Looks at the ring from a site to itself.
fn look_at_own<L: Log>(one: &mut SiteBox<L>, at: usize)
    requires places { (at < length one.old.ends.sites_in.items) × (at < length one.old.ends.sites_out.items) }
    requires ring { HasRing at at one.old one.old }
    ensures still { IsStill one.old one.new }
    ensures brought { Brought at at one.old one.old }
{
    let ends = one.ends();
    ends.sites_in[at].beside(&mut ends.sites_out[at]);
}

// Looks at both rings between two sites.
fn look_between<L: Log>(boxes: &mut Vec<SiteBox<L>>, first: usize, second: usize)
    requires linked { AreLinked boxes.old.items }
    requires places { (first < second) × (second < length boxes.old.items) }
    ensures still { AllStill boxes.old.items boxes.new.items }
    ensures on { (any : SiteBox L) → Brought first second (get_or boxes.old.items first any) (get_or boxes.old.items second any) }
    ensures back { (any : SiteBox L) → Brought second first (get_or boxes.old.items second any) (get_or boxes.old.items first any) }
{
    // The two stand in one list, and both are needed at once.
    let (before, behind) = boxes.split_at_mut(second);
    look_at_both(&mut before[first], first, &mut behind[0], second);
}

// Looks at both rings between two boxes, which have these numbers.
fn look_at_both<L: Log>(one: &mut SiteBox<L>, at: usize, other: &mut SiteBox<L>, to: usize)
    requires places { (to < length one.old.ends.sites_in.items) × (to < length one.old.ends.sites_out.items) }
    requires others { (at < length other.old.ends.sites_in.items) × (at < length other.old.ends.sites_out.items) }
    requires rings { HasRing at to one.old other.old × HasRing to at other.old one.old }
    ensures one { IsStill one.old one.new }
    ensures other { IsStill other.old other.new }
    ensures on { Brought at to one.old other.old }
    ensures back { Brought to at other.old one.old }
{
    let here = one.ends();
    let there = other.ends();
    there.sites_in[at].beside(&mut here.sites_out[to]);
    here.sites_in[to].beside(&mut there.sites_out[at]);
}

/// Looks at the ring by which each client asks, and tells whether each is empty or the box of its site is worn. Of a client's requests those that stand in its site's
/// history stand there each once and in order.
pub(crate) fn look_at_clients<L: Log>(
    script: &LiveScript,
    boxes: &mut Vec<SiteBox<L>>,
    clients: &mut Vec<Ended>,
) -> bool
    requires script { IsRead script.now }
    requires standing { StandTogether L.model script.now boxes.old.items clients.old.items }
    ensures still { AllStill boxes.old.items boxes.new.items }
    ensures looked { AllLooked clients.old.items clients.new.items }
    ensures once { StandOnceTo (length script.now.clients.items) boxes.old.items script.now.clients.items }
    ensures taken { result ≡ true → WereTakenTo (length script.now.clients.items) boxes.old.items script.now.clients.items clients.old.items }
{
    live_scripts_are_small();
    boxes_lend_their_ends::<L>();
    boxes_stand_on::<L>();
    let mut all = true;
    for at in 0..script.clients.len() {
        let site = script.clients[at].site.0 as usize;
        let place = place_of(&script.clients, at);
        all = look_at_client(&mut boxes[site], place as usize, &mut clients[at], all);
    }
    all
}

// Looks at the ring by which the client at this place among its site's own asks, and tells whether all rings so far are done with: those before are where `before` says
// so, and this one is where it is empty or its box is worn.
fn look_at_client<L: Log>(
    one: &mut SiteBox<L>,
    place: usize,
    ended: &mut Ended,
    before: bool,
) -> bool
    requires { AsksBox place ended.old.asks one.old }
    ensures still { IsStill one.old one.new }
    ensures looked { IsLooked ended.old ended.new }
    ensures began { (inlet : In Request) → IsPrefix (taken (get_or one.old.ends.clients_in.items place inlet)) (posted ended.old.asks) }
    ensures before { result ≡ true → before ≡ true }
    ensures taken { result ≡ true → WasTaken one.old place ended.old }
{
    let worn = one.is_worn();
    let ends = one.ends();
    let held = ends.clients_in[place].beside(&mut ended.asks);
    is_over(before, worn, held)
}

// Whether a ring that holds so many is done with, and all before it are: nothing is left in it, or its box takes nothing any more.
fn is_over(before: bool, worn: bool, held: usize) -> bool
    ensures { result ≡ true → (before ≡ true) × ((worn ≡ true) ⊎ (held ≡ 0)) }
{
    before && (worn || held == 0)
}
