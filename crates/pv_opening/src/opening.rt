// The boxes and clients of a live run, with the rings between them.
ghost use Rattle.std.specs.Prelude.{IfOk};
ghost use Rattle.pv_opening.specs.Opened.{AreOpened};
ghost use Rattle.pv_opening.specs.Opening.{AreNew, IsRead};

use crate::boxing::{EndRows, box_all};
use crate::meeting::meet_all;
use pv_base::NoMemory;
use pv_cell::SiteBox;
use pv_crew::Client;
use pv_disk::Log;
use pv_links::{link_all, new_rows};
use pv_mail::Answer;
use pv_post::FaultPlan;
use pv_script::{LiveScript, Request};
use pv_site::Site;
use std::alloc::Global;

/// What a live run begins with.
#[derive(Drop)]
pub struct Opened<L: Log> {
    /// The boxes, in the order of sites.
    pub boxes: Vec<SiteBox<L>>,
    /// The clients, in the order of the script.
    pub clients: Vec<Client<Request, Answer>>,
}

/// The boxes and the clients of a live script, which was read from a text, over these sites: the sites of its catalog, in order, each opened on a log in which nothing
/// was found. A ring goes from each site to each, one's own among them, on which messages fail as the script says, and from each client to its site and back, on which
/// none fails. Without memory the sites are gone, with their logs.
pub fn open_all<L: Log>(
    alloc: Global,
    script: &LiveScript,
    sites: Vec<Site<L>>,
) -> Result<Opened<L>, NoMemory>
    requires script { IsRead script.now }
    requires sites { AreNew L.model script.now.catalog sites.items }
    ensures { IfOk result (λ opened. AreOpened L.model script.now sites.items opened.boxes.items opened.clients.items) }
{
    let count = sites.len();
    let plan = FaultPlan {
        drop_each: script.drop_each,
        double_each: script.double_each,
    };
    let (sites_out, sites_in) = link_all(alloc, plan, count)?;
    let mut clients_in = new_rows(alloc, count)?;
    let mut clients_out = new_rows(alloc, count)?;
    let clients = meet_all(alloc, &script.clients, &mut clients_in, &mut clients_out)?;
    let rows = EndRows {
        sites_in,
        sites_out,
        clients_in,
        clients_out,
    };
    let boxes = box_all(alloc, &script.catalog, sites, rows)?;
    Ok(Opened { boxes, clients })
}
