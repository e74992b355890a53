// A world of sites, and its step.
ghost use Rattle.std.specs.Prelude.{◌≡◌, IfOk};
ghost use Rattle.pv_protocol.specs.World as model;
ghost use Rattle.pv_protocol.specs.World.{opening};
ghost use Rattle.pv_protocol.specs.WellFormed.{IsWellFormed};
ghost use Rattle.pv_script.specs.ScheduleView.{event_of, HasPlan};
ghost use Rattle.pv_site.specs.SiteState.{setup_of};
ghost use Rattle.pv_world.specs.Disks.{HoldSites};
ghost use Rattle.pv_world.specs.Stands.{StandsFor, StandsForSome};
ghost use Rattle.pv_world.specs.Steps.{Steps};

use crate::WorldError;
use crate::cell::Cell;
use crate::mail::Mail;
use crate::order::Placed;
use crate::room::Room;
use crate::spare::Spare;
use pv_base::{Catalog, NoMemory, SiteId};
use pv_disk::MemDisk;
use pv_script::{Event, Line};
use pv_site::setup_is_in_range;
use std::alloc::Global;

/// All sites of a database, each over a log in two areas on a disk in memory, the messages between them, and the order of the transactions. The events of
/// a schedule change it, one after another: what is delivered, lost or repeated, which site stops, and in which write or sync, is the schedule's
/// to say.
#[derive(Drop)]
pub struct World {
    /// Where its memory comes from.
    pub(crate) alloc: Global,
    /// What is declared.
    pub(crate) catalog: Catalog,
    /// The sites, by their numbers.
    pub(crate) cells: Vec<Cell>,
    /// Every message that was sent.
    pub(crate) mail: Mail,
    /// The transactions that reached their lock points, in that order.
    pub(crate) order: Vec<Placed>,
    /// Where the disks go when the world ends.
    pub(crate) room: Room,
    /// Memory for the bytes of the message that is sent next.
    pub(crate) spare: Spare,
}

impl World {
    /// The world in which each site of the catalog has been started once, and nothing was sent. Its messages may have `sent_limit` bytes
    /// together. Takes time in proportion to the sites times the items.
    pub fn new(alloc: Global, catalog: &Catalog, sent_limit: u64) -> Result<World, NoMemory>
        ensures stands { IfOk result (λ world. StandsFor world (opening (setup_of catalog.now))) }
        ensures catalog { IfOk result (λ world. world.catalog ≡ catalog.now) }
        ensures limit { IfOk result (λ world. world.mail.limit ≡ sent_limit) }
    {
        setup_is_in_range(catalog);
        let mut cells = Vec::with_capacity(alloc, catalog.sites() as usize)?;
        for site in 0..catalog.sites() {
            cells.push_reserved(Cell::open(alloc, SiteId(site), catalog)?);
        }
        Ok(World {
            alloc,
            catalog: catalog.copy()?,
            cells,
            mail: Mail::new(alloc, sent_limit)?,
            order: Vec::new(alloc),
            room: Room::new(alloc)?,
            spare: Spare::new(alloc),
        })
    }

    /// What the event prints; the world is then the one after it. The event's sites are the catalog's, a write or sync that it arms is counted
    /// from 1, and a request has the plan that `check` answers for its program. Takes time in proportion to what the event prints, sends and
    /// touches; where a site starts, makes a checkpoint, or its disk fails, besides in proportion to its log and the items, and a tick to what stands at the site.
    ///
    /// - [`WorldError::SentLimit`]: the encoded bytes of all messages, with those of the first one that passes the limit, are so many. The world
    ///   is then to be dropped.
    /// - [`WorldError::NoMemory`]: there was no memory. The world is then to be dropped.
    pub fn step(&mut self, event: &Event) -> Result<Vec<Line>, WorldError>
        requires stands { StandsForSome self.old }
        requires event { IsWellFormed self.old.catalog (event_of event.now) }
        requires plan { HasPlan self.old.catalog event.now }
        ensures { (is : model.World) → StandsFor self.old is → Steps self.old self.new (event_of event.now) is result }
    {
        let mut lines = Vec::new(self.alloc);
        self.happen(event, &mut lines)?;
        Ok(lines)
    }

    /// The disks of the sites, by their numbers, those of sites that are down too. Each holds the log of its site. It wants no memory.
    pub fn close(self) -> Vec<MemDisk>
        requires { StandsForSome self }
        ensures { (is : model.World) → StandsFor self is → HoldSites result.items is.sites }
    {
        let World { cells, room, .. } = self;
        room.fill(cells)
    }
}
