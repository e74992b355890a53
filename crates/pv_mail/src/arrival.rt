// What comes from the rings into a box.
ghost use Rattle.std.specs.Prelude.{◌≡◌, ◌<◌, ◌≤◌, ◌^◌, length, IfSome, IfNone, IfOk};
ghost use Rattle.pv_mail.specs.Arrivals.{Comes, IsFirstOf, NoneBefore, place_behind, place_of};
ghost use Rattle.pv_mail.specs.Looks.{AllFoundEmpty, SameOutRings};
ghost use Rattle.pv_rings.specs.Rings.{AreFoundEmpty};
ghost use Rattle.pv_script.specs.LiveView.{request_of};

use crate::{Ends, Parcel};
use pv_base::{NoMemory, SiteId};
use pv_rings::take_among;
use pv_script::Request;
use std::alloc::Global;
use std::ops::Range;

/// What a ring brought.
#[derive(Drop)]
pub enum Arrival {
    /// A client's request.
    Request {
        /// The place of the client among the site's own.
        client: u32,
        /// What it asks for.
        request: Request,
    },
    /// A site's message.
    Parcel {
        /// The site that sent it.
        from: SiteId,
        /// The message.
        parcel: Parcel,
    },
}

impl Ends {
    /// What the next ring gives that holds something, and how often it counts. Each ring is looked at once at most, in turn: those of sites and then those
    /// of clients, from this one on, and then those before it. The next look begins behind the ring that gave.
    pub fn take_next(&mut self, next: &mut usize) -> Option<(Arrival, u8)>
        requires few { (length self.old.sites_in.items ≤ 2 ^ 8) × (length self.old.clients_in.items < 2 ^ 32) }
        ensures some { IfSome result (λ it. Comes self.old self.new it.0 it.1) }
        ensures turn { IfSome result (λ it. NoneBefore next.old (place_of (length self.old.sites_in.items) it.0) self.old self.new) }
        ensures none { IfNone result (AllFoundEmpty self.old self.new) }
        ensures next { IfSome result (λ it. next.new ≡ place_behind (length self.old.sites_in.items) it.0) }
        ensures rest { IfNone result (next.new ≡ next.old) }
        ensures out { SameOutRings self.old self.new }
    {
        let sites = self.sites_in.len();
        let clients = self.clients_in.len();
        let site = (*next).min(sites);
        let client = (*next - site).min(clients);
        let (arrival, count) = match self.take_between(site..sites, client..clients) {
            Some(came) => came,
            None => self.take_between(0..site, 0..client)?,
        };
        *next = behind(&arrival, sites);
        Some((arrival, count))
    }

    // What the first ring gives that holds something, among these of sites and then these of clients.
    fn take_between(&mut self, sites: Range<usize>, clients: Range<usize>) -> Option<(Arrival, u8)>
        requires sites { (sites.start ≤ sites.end) × (sites.end ≤ length self.old.sites_in.items) }
        requires clients { (clients.start ≤ clients.end) × (clients.end ≤ length self.old.clients_in.items) }
        requires few { (length self.old.sites_in.items ≤ 2 ^ 8) × (length self.old.clients_in.items < 2 ^ 32) }
        ensures some { IfSome result (λ it. Comes self.old self.new it.0 it.1) }
        ensures turn { IfSome result (λ it. IsFirstOf sites.start sites.end clients.start clients.end it.0 self.old self.new) }
        ensures no_site { IfNone result (AreFoundEmpty sites.start sites.end self.old.sites_in.items self.new.sites_in.items) }
        ensures no_client { IfNone result (AreFoundEmpty clients.start clients.end self.old.clients_in.items self.new.clients_in.items) }
        ensures out { SameOutRings self.old self.new }
    {
        if let Some(found) = take_among(&mut self.sites_in, sites.start, sites.end) {
            let arrival = Arrival::Parcel {
                from: SiteId(found.ring as u8),
                parcel: found.message,
            };
            return Some((arrival, found.count));
        }
        let found = take_among(&mut self.clients_in, clients.start, clients.end)?;
        let arrival = Arrival::Request {
            client: found.ring as u32,
            request: found.message,
        };
        Some((arrival, found.count))
    }
}

// The ring behind the one that gave this, where there are so many of sites.
fn behind(arrival: &Arrival, sites: usize) -> usize
    requires { sites ≤ 2 ^ 8 }
    ensures { result ≡ place_behind sites arrival.now }
{
    match arrival {
        Arrival::Parcel { from, .. } => from.0 as usize + 1,
        Arrival::Request { client, .. } => sites + *client as usize + 1,
    }
}

/// An equal request, which shares nothing with this one.
pub fn copy_request(alloc: Global, request: &Request) -> Result<Request, NoMemory>
    ensures request { IfOk result (λ copy. request_of copy ≡ request_of request.now) }
    ensures plan { IfOk result (λ copy. copy.plan.parts.items ≡ request.now.plan.parts.items) }
{
    Ok(Request {
        number: request.number,
        query: request.query,
        text: Vec::from_slice(alloc, &request.text)?,
        program: request.program.copy(alloc)?,
        plan: request.plan.copy(alloc)?,
    })
}
