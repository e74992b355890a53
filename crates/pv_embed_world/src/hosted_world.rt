// A world that a host feeds line by line.
ghost use Rattle.std.specs.Prelude.{◌≡◌, ◌++◌, ℕ, List, length, min, take, drop};
ghost use Rattle.pv_model.specs.Events as happening;
ghost use Rattle.pv_protocol.specs.WellFormed.{IsWellFormed};
ghost use Rattle.pv_protocol.specs.World as model;
ghost use Rattle.pv_script.specs.ScheduleView.{event_of, HasPlan};
ghost use Rattle.pv_world.specs.Stands.{StandsFor, StandsForSome};
ghost use Rattle.pv_embed_world.specs.Advance.{Advances};
ghost use Rattle.pv_embed_world.specs.World.{HasRun, Opens, StepsByLine};

use crate::WorldFault;
use crate::kept::Kept;
use crate::reading::{catalog_in, event_in};
use pv_base::{Catalog, MAX_SENT, NoMemory};
use pv_script::{CatalogText, Event};
use pv_world::{World, WorldError};
use std::alloc::Global;
use std::marker::Model;

/// A world of sites in memory, for a host that feeds it with the events of a schedule, line by line.
///
/// What a step prints is kept inside, as text just as `polydb run` prints it, until the host takes it by [`HostedWorld::take`]. All that is kept, one step after another,
/// is what the run of these events prints.
#[derive(Drop)]
pub struct HostedWorld {
    /// Where its memory comes from.
    alloc: Global,
    /// The text that declares its catalog.
    declared: CatalogText,
    /// The world, unless a step was broken off or passed the limit.
    world: Option<World>,
    /// What is printed and not yet taken.
    kept: Kept,
}

impl Model for HostedWorld {
    ghost use Rattle.pv_embed_world.specs.World.{Hosted};
    ghost use Rattle.pv_embed_world.specs.WorldView.{hosted_of, IsHosted};

    ghost Value = { Hosted };

    ghost use Rattle.std.specs.Coded.{codes};
    ghost use Rattle.pv_model.specs.SyntaxCodes.{program_code};

    ghost coded = { Prim.hlevel (codes, program_code) };

    ghost view = { hosted_of };

    ghost invariant = { IsHosted };
}

impl HostedWorld {
    /// Opens a world in which each site has started once, and nothing has happened. The text has the lines `sites`, `journal` and `item` of a schedule, and no event. Takes
    /// time in proportion to the text, and to the sites times the items.
    ///
    /// - [`WorldFault::TooLong`]: the text has more than [`MAX_INPUT`](pv_base::MAX_INPUT) bytes.
    /// - [`WorldFault::Malformed`]: this line of it is at fault.
    /// - [`WorldFault::HasEvents`]: it has an event.
    /// - [`WorldFault::NoMemory`]: there was no memory. No other fault comes.
    pub fn open(alloc: Global, catalog: &[u8]) -> Result<HostedWorld, WorldFault>
        ensures { Opens catalog.now result }
    {
        let declared = catalog_in(alloc, catalog)?;
        let world = World::new(alloc, declared.catalog(), MAX_SENT)?;
        Ok(HostedWorld {
            alloc,
            declared,
            world: Some(world),
            kept: Kept::new(alloc),
        })
    }

    /// Makes the step of the event that the line is: the catalog's text with the line behind it is a schedule of the same catalog with that one event. Its lines are kept.
    ///
    /// Takes time in proportion to the line and to what the event takes: what it prints, sends and touches. Only a line that declares something, or is several, takes time
    /// in proportion to the catalog's text too.
    ///
    /// These leave all as it was:
    ///
    /// - [`WorldFault::TooLong`]: the text and the line have more than [`MAX_INPUT`](pv_base::MAX_INPUT) bytes with the line feed between them.
    /// - [`WorldFault::Malformed`]: they are no schedule. The line at fault is counted behind the text.
    /// - [`WorldFault::NotOneEvent`]: they are a schedule with no event or several, or one that declares something else than the text.
    /// - [`WorldFault::NoMemory`]: there was no memory to read the line.
    /// - [`WorldFault::Closed`]: the world takes no more steps.
    ///
    /// With these the world takes no more steps, and what is kept is as it was:
    ///
    /// - [`WorldFault::SentLimit`]: the messages pass the limit on bytes in this event, as where `polydb run` ends with status 8.
    /// - [`WorldFault::BrokenOff`]: there was no memory within the step.
    pub fn step(&mut self, line: &[u8]) -> Result<(), WorldFault>
        ensures { StepsByLine self.old self.new line.now result }
    {
        let Some(world) = &mut self.world else {
            return Err(WorldFault::Closed);
        };
        let event = match event_in(self.alloc, &self.declared, line) {
            Ok(event) => event,
            Err(fault) => return Err(fault),
        };
        match advance(world, &event, &mut self.kept, self.declared.catalog()) {
            Ok(()) => Ok(()),
            Err(fault) => {
                self.world = None;
                Err(fault)
            }
        }
    }

    /// Writes the oldest of the bytes that are kept to the front of `out`, as many as there is room for, and answers how many. These are no longer kept.
    pub fn take(&mut self, out: &mut [u8]) -> usize
        ensures count { result ≡ min (length out.old) (length self.old.kept) }
        ensures copied { out.new ≡ take result self.old.kept ++ drop result out.old }
        ensures rest { self.new ≡ record self.old { kept = drop result self.old.kept } }
        ensures run { (events : List happening.Event) (taken : List ℕ) → HasRun self.old events taken → HasRun self.new events (taken ++ take result self.old.kept) }
    {
        self.kept.take(out)
    }
}

// Makes the step of the event, and keeps the text of what it prints.
fn advance(
    world: &mut World,
    event: &Event,
    kept: &mut Kept,
    catalog: &Catalog,
) -> Result<(), WorldFault>
    requires stands { StandsForSome world.old }
    requires event { IsWellFormed world.old.catalog (event_of event.now) }
    requires plan { HasPlan world.old.catalog event.now }
    requires catalog { world.old.catalog ≡ catalog.now }
    ensures { (is : model.World) → StandsFor world.old is → Advances world.old world.new kept.old kept.new (event_of event.now) is result }
{
    match world.step(event) {
        Ok(lines) => match kept.push(&lines, catalog) {
            Ok(()) => Ok(()),
            Err(NoMemory) => Err(WorldFault::BrokenOff),
        },
        Err(WorldError::SentLimit(total)) => Err(WorldFault::SentLimit(total)),
        Err(WorldError::NoMemory) => Err(WorldFault::BrokenOff),
    }
}
