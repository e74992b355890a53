// The calls on a slot of a world.
ghost use Rattle.std.specs.Prelude.{◌≡◌, None};
ghost use Rattle.pv_embed_world.specs.World as hosted;
ghost use Rattle.pv_embed_world.specs.World.{StepsByLine};
ghost use Rattle.pv_handle.specs.Slot.{Opens, Calls, Asks};
ghost use Rattle.pv_handle.specs.World.{TakesKept};
ghost use Rattle.pv_c.specs.Answer.{Answers, Counted};
ghost use Rattle.pv_c.specs.Causes.{world_number};

use crate::given_text::given;
use crate::numbers::status_of_world;
use crate::status::{CLOSED, DONE};
use pv_handle::WorldSlot;
use std::alloc::Global;

/// Opens a closed slot with the world of a catalog.
#[unsafe(no_mangle)]
pub extern "C" fn polydb_world_open(alloc: Global, world: &mut WorldSlot, catalog: &[u8]) -> u32
    ensures { Answers world_number result (Opens (hosted.Opens catalog.now) world.old.handle.world world.new.handle.world) }
{
    status_of_world(world.open(alloc, given(catalog)))
}

/// One step.
#[unsafe(no_mangle)]
pub extern "C" fn polydb_world_step(alloc: Global, world: &mut WorldSlot, line: &[u8]) -> u32
    ensures { Answers world_number result (Calls (λ old new. StepsByLine old new line.now) world.old.handle.world world.new.handle.world) }
{
    status_of_world(world.step(alloc, given(line)))
}

/// Writes the oldest lines that are kept, as far as there is room, drops what was written, and says how many bytes that is.
#[unsafe(no_mangle)]
pub extern "C" fn polydb_world_take(
    alloc: Global,
    world: &mut WorldSlot,
    out: &mut [u8],
    written: &mut usize,
) -> u32
    ensures taken { Counted result written.new (Asks (TakesKept out.old out.new) world.old.handle.world world.new.handle.world) }
    ensures unchanged { world.old.handle.world ≡ None → out.new ≡ out.old }
{
    let answer = world.take(alloc, out);
    let (status, count) = match answer {
        Some(count) => (DONE, count),
        None => (CLOSED, 0),
    };
    *written = count;
    status
}

/// Closes the slot and frees what it held.
#[unsafe(no_mangle)]
pub extern "C" fn polydb_world_close(alloc: Global, world: &mut WorldSlot)
    ensures { world.new.handle.world ≡ None }
{
    world.close(alloc);
}
