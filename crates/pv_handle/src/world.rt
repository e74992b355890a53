// The slot of a world.
mod handle;

ghost use Rattle.std.specs.Prelude.{◌≡◌, Some, None, IsSome, is_some};

use crate::parts::boxed;
use crate::refused::Refused;
use handle::WorldHandle;
use pv_embed_world::{HostedWorld, WorldFault};
use std::alloc::Global;

/// A world or none, as C holds it: zeroes are a closed slot.
#[repr(C)]
pub struct WorldSlot {
    live: bool,
    /// Where the world lies.
    pub handle: WorldHandle,
    /// The flag says whether there is a world.
    pub ghost agrees: { live ≡ is_some handle.world },
}

impl WorldSlot {
    ghost use Rattle.std.specs.Prelude.{IfNone};
    ghost use Rattle.pv_embed_world.specs.World as hosted;
    ghost use Rattle.pv_embed_world.specs.World.{StepsByLine};
    ghost use Rattle.pv_handle.specs.Slot.{Opens, Calls, Asks};
    ghost use Rattle.pv_handle.specs.World.{TakesKept};

    /// A slot with no world.
    pub fn closed(alloc: Global) -> WorldSlot
        ensures { result.handle.world ≡ None }
    {
        WorldSlot {
            live: false,
            handle: WorldHandle::none(alloc),
        }
    }

    /// Opens a closed slot with the world of a catalog.
    pub fn open(&mut self, alloc: Global, catalog: &[u8]) -> Result<(), Refused<WorldFault>>
        ensures { Opens (hosted.Opens catalog.now) self.old.handle.world self.new.handle.world result }
    {
        if self.live {
            return Err(Refused::InUse);
        }
        let world = match HostedWorld::open(alloc, catalog) {
            Ok(world) => world,
            Err(fault) => return Err(Refused::Engine(fault)),
        };
        let Ok(world) = boxed(alloc, world) else {
            return Err(Refused::Engine(WorldFault::NoMemory));
        };
        self.put(world);
        Ok(())
    }

    /// One step of the world.
    pub fn step(&mut self, alloc: Global, line: &[u8]) -> Result<(), Refused<WorldFault>>
        ensures { Calls (λ old new. StepsByLine old new line.now) self.old.handle.world self.new.handle.world result }
    {
        if !self.live {
            return Err(Refused::Closed);
        }
        let mut world = self.take_out(alloc);
        let done = world.step(line);
        self.put(world);
        match done {
            Ok(()) => Ok(()),
            Err(fault) => Err(Refused::Engine(fault)),
        }
    }

    /// Writes the oldest lines that are kept, as far as there is room, and drops what was written.
    pub fn take(&mut self, alloc: Global, out: &mut [u8]) -> Option<usize>
        ensures taken { Asks (TakesKept out.old out.new) self.old.handle.world self.new.handle.world result }
        ensures unchanged { IfNone result (out.new ≡ out.old) }
    {
        if !self.live {
            return None;
        }
        let mut world = self.take_out(alloc);
        let count = world.take(out);
        self.put(world);
        Some(count)
    }

    /// Closes the slot and frees what it held. A closed slot stays closed.
    pub fn close(&mut self, alloc: Global)
        ensures { self.new.handle.world ≡ None }
    {
        *self = WorldSlot::closed(alloc);
    }

    fn take_out(&mut self, alloc: Global) -> Box<HostedWorld>
        requires { IsSome self.old.handle.world }
        ensures taken { self.old.handle.world ≡ Some result.value }
        ensures empty { self.new.handle.world ≡ None }
    {
        let handle = std::mem::replace(&mut self.handle, WorldHandle::none(alloc));
        self.live = false;
        handle.into_box()
    }

    fn put(&mut self, world: Box<HostedWorld>)
        ensures { self.new.handle.world ≡ Some world.value }
    {
        self.handle = WorldHandle::of(world);
        self.live = true;
    }
}

impl Drop for WorldSlot {
    fn drop(self) {
        let WorldSlot { live, handle } = self;
        if live {
            drop(handle.into_box());
        }
    }
}
