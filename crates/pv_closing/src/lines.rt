// The lines of clients.
ghost use Rattle.std.specs.Prelude.{◌≡◌, ◌==◌, ◌≤◌, ◌||◌, [], ◌∷◌, ℕ, ◌+◌, ◌<◌, ◌^◌, All, IfOk, IsTrue, get_or, if◌then◌else◌, length, take};
ghost use Rattle.pv_base.specs.declared.limits.TheConstants.{MAX_CLIENTS};
ghost use Rattle.pv_cell.specs.Box.{course_site};
ghost use Rattle.pv_closing.specs.Boxes.{IsClosedBox, Stands, history_in};
ghost use Rattle.pv_closing.specs.Clients.{AreTold, HearsAll};
ghost use Rattle.pv_closing.specs.Lines.{HaveLooked, IsLineFor, IsNoLook, IsPeeked, has_request, looked_after, reading_of};
ghost use Rattle.pv_law_histories.specs.Peeks.{reading_in};
ghost use Rattle.pv_opening.specs.Counts.{count_at};
ghost use Rattle.pv_opening.specs.Opening.{IsHere, IsRead};
ghost use Rattle.pv_protocol.specs.Lock.{is_home};
ghost use Rattle.pv_shelf.specs.declared.peek.Peek.{Peek};
ghost use Rattle.pv_site.specs.SiteState.{setup_of};
ghost use Rattle.pv_told.specs.declared.line.ClientWhat.TheVariants as what;

use pv_base::{Catalog, ItemId, NoMemory, SiteId};
use pv_cell::SiteBox;
use pv_disk::Log;
use pv_opening::live_scripts_are_small;
use pv_script::{Client, LiveScript, Wish};
use pv_shelf::{Face, Peek, sure_face};
use pv_site::{Shown, Site};
use pv_told::{ClientLine, ClientWhat, lines_of_client};
use std::alloc::Global;

/// What each client of the script hears of each thing that it wants, in order, by the boxes of all sites. Takes for each client the time of [`lines_of_client`].
pub fn lines_of<L: Log>(
    alloc: Global,
    script: &LiveScript,
    boxes: &[SiteBox<L>],
) -> Result<Vec<Vec<ClientLine>>, NoMemory>
    requires script { IsRead script.now }
    requires count { length boxes.now ≡ script.now.catalog.sites }
    requires closed { (n : ℕ) (any : SiteBox L) → n < length boxes.now → IsClosedBox L.model script.now.catalog n (get_or boxes.now n any) }
    ensures { IfOk result (λ lines. AreTold boxes.now script.now.clients.items lines.items) }
{
    live_scripts_are_small();
    let clients = &script.clients;
    let mut lines = Vec::new(alloc);
    for at in 0..clients.len() {
        let place = place_of(clients, at);
        let client = &clients[at];
        let site = client.site.0 as usize;
        let heard = lines_by(alloc, &boxes[site], &script.catalog, place, client)?;
        lines.push(heard)?;
    }
    Ok(lines)
}

/// The place of a client among its site's own: how many before it are of the same site.
pub fn place_of(clients: &[Client], at: usize) -> u32
    requires few { length clients.now ≤ MAX_CLIENTS }
    requires at { at < length clients.now }
    ensures { (any : Client) → result ≡ count_at (get_or clients.now at any).site.0 (take at clients.now) }
{
    let (before, _) = clients.split_at(at);
    count_of(before, clients[at].site)
}

// How many of these clients are of the site.
fn count_of(clients: &[Client], site: SiteId) -> u32
    requires { length clients.now ≤ MAX_CLIENTS }
    ensures { result ≡ count_at site.0 clients.now }
{
    let mut count = 0;
    for client in clients {
        count = counted(count, client, site);
    }
    count
}

// One more, if the client is of the site.
fn counted(count: u32, client: &Client, site: SiteId) -> u32
    requires { count < MAX_CLIENTS }
    ensures { result ≡ (if client.now.site.0 == site.0 then count + 1 else count) }
{
    if client.site == site {
        count + 1
    } else {
        count
    }
}

// What the client at this place among its site's own hears of each thing that it wants, by the box of its site.
fn lines_by<L: Log>(
    alloc: Global,
    of: &SiteBox<L>,
    catalog: &Catalog,
    place: u32,
    client: &Client,
) -> Result<Vec<ClientLine>, NoMemory>
    requires catalog { of.now.site.catalog ≡ catalog.now }
    requires site { of.now.site.me ≡ client.now.site.0 }
    requires few { length client.now.requests.items < 2 ^ 32 }
    requires stands { Stands of.now }
    requires here { All (IsHere of.now.site.catalog.items client.now.site.0) client.now.requests.items }
    ensures { IfOk result (λ lines. HearsAll of.now place client.now lines.items) }
{
    let wishes = client.requests.len() as u32;
    let mut lines = lines_of_client(
        alloc,
        client.site,
        of.is_worn(),
        of.history(),
        place,
        wishes,
    )?;
    put_looks(alloc, of, catalog, &client.requests, &mut lines);
    Ok(lines)
}

// Puts what the client finds of the items that it looks at into the lines of all that it wants, which say nothing of looks yet.
fn put_looks<L: Log>(
    alloc: Global,
    of: &SiteBox<L>,
    catalog: &Catalog,
    wishes: &[Wish],
    lines: &mut Vec<ClientLine>,
)
    requires catalog { of.now.site.catalog ≡ catalog.now }
    requires stands { Stands of.now }
    requires here { All (IsHere of.now.site.catalog.items of.now.site.me) wishes.now }
    requires count { length lines.old.items ≡ length wishes.now }
    requires said { All IsNoLook lines.old.items }
    ensures { HaveLooked of.now wishes.now lines.old.items (length wishes.now) lines.new.items }
{
    let mut asked = false;
    for at in 0..wishes.len() {
        put_look(alloc, of, catalog, asked, &wishes[at], &mut lines[at]);
        asked = asks(asked, &wishes[at]);
    }
}

// Whether anything was asked for, when the client has come to this too.
fn asks(asked: bool, wish: &Wish) -> bool
    ensures { result ≡ asked || has_request (wish.now ∷ []) }
{
    match wish {
        Wish::Do(_) => true,
        Wish::Peek { .. } => asked,
    }
}

// Puts what the client finds of an item into its line, where it looks at one.
fn put_look<L: Log>(
    alloc: Global,
    of: &SiteBox<L>,
    catalog: &Catalog,
    asked: bool,
    wish: &Wish,
    line: &mut ClientLine,
)
    requires catalog { of.now.site.catalog ≡ catalog.now }
    requires stands { Stands of.now }
    requires here { IsHere of.now.site.catalog.items of.now.site.me wish.now }
    requires said { IsNoLook line.old }
    ensures told { IsLineFor of.now wish.now line.old line.new }
    ensures steps { (peek : Peek) → line.new.what ≡ what.Peek peek → peek.steps ≡ looked_after of.now asked }
{
    if let Wish::Peek { item, .. } = wish {
        line.what = if asked {
            look(alloc, of, *item)
        } else {
            first_look(alloc, of, catalog, *item)
        };
    }
}

// What a client finds of an item of its site before it asks for anything: what was declared.
fn first_look<L: Log>(alloc: Global, of: &SiteBox<L>, catalog: &Catalog, item: ItemId) -> ClientWhat
    requires catalog { of.now.site.catalog ≡ catalog.now }
    requires item { IsTrue (is_home of.now.site.catalog of.now.site.me item.0) }
    ensures peeked { IsPeeked of.now item.0 result }
    ensures steps { (peek : Peek) → result ≡ what.Peek peek → peek.steps ≡ 0 }
{
    match sure_face(alloc, catalog.declared(item)) {
        Ok(face) => ClientWhat::Peek(Peek { steps: 0, face }),
        Err(_) => ClientWhat::NoMemory,
    }
}

// What the client finds of an item of its site, by the site's box at the end of its history.
fn look<L: Log>(alloc: Global, of: &SiteBox<L>, item: ItemId) -> ClientWhat
    requires stands { Stands of.now }
    requires item { IsTrue (is_home of.now.site.catalog of.now.site.me item.0) }
    ensures peeked { IsPeeked of.now item.0 result }
    ensures last { (peek : Peek) → result ≡ what.Peek peek → peek.steps ≡ length (history_in of.now) }
{
    let steps = of.history().len() as u64;
    match face_of(alloc, of.site(), item) {
        Ok(face) => ClientWhat::Peek(Peek { steps, face }),
        Err(_) => ClientWhat::NoMemory,
    }
}

/// What the site shows of its item.
pub fn face_of<L: Log>(alloc: Global, site: &Site<L>, item: ItemId) -> Result<Face, NoMemory>
    requires { IsTrue (is_home site.now.catalog site.now.me item.0) }
    ensures { IfOk result (λ face. reading_of site.now.me face ≡ reading_in (setup_of site.now.catalog) site.now.me (course_site site.now) item.0) }
{
    match site.read(item) {
        Shown::Down => Ok(Face::Down),
        Shown::Locked(holder) => Ok(Face::Locked(holder)),
        Shown::Cases(value) => Ok(Face::Cases(value.copy(alloc)?)),
    }
}
