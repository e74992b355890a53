// What a look at a list of parts tells.
ghost use Rattle.std.specs.Prelude.{◌≡◌, ◌<◌, List, Some, length, slice_get};
ghost use Rattle.std.specs.List.{AllPairs, Contains};
ghost use Rattle.pv_shelf.specs.Log.{IsLog, steps_of, width_of};
ghost use Rattle.pv_shelf.specs.Part.{Part};
ghost use Rattle.pv_shelf.specs.Peeks.{IsAnswerAt, IsMissed};

use crate::part::ShelfPart;
use crate::peek::{Peek, PeekError};
use pv_base::ItemId;
use std::alloc::Global;

/// Where the item stands among these, which ascend.
pub(crate) fn place_of(items: &[u32], item: ItemId) -> usize
    requires ascending { AllPairs (λ item later. item < later) items.now }
    requires item { Contains items.now item.0 }
    ensures { slice_get items.now result ≡ Some item.0 }
{
    items.binary_search(&item.0).unwrap()
}

/// Of how many steps the last part is, and what is told of the item in this place.
pub(crate) fn peek_at(
    alloc: Global,
    parts: &[ShelfPart],
    place: usize,
    least: u64,
) -> (u64, Result<Peek, PeekError>)
    requires log { IsLog parts.now }
    requires some { 0 < length parts.now }
    requires place { place < width_of parts.now }
    ensures steps { result.0 ≡ steps_of parts.now }
    ensures answer { IsAnswerAt parts.now place least result.1 }
{
    let part = parts.last().unwrap();
    let steps = part.steps;
    if steps < least {
        return (steps, Err(PeekError::Behind(steps)));
    }
    match part.faces[place].copy(alloc) {
        Ok(face) => (steps, Ok(Peek { steps, face })),
        Err(_) => (steps, Err(PeekError::NoMemory)),
    }
}

/// What a reader is told that finds no more than these steps, and no memory.
pub(crate) fn missed(steps: u64, least: u64) -> PeekError
    ensures { (found : List Part) → steps_of found ≡ steps → IsMissed found least result }
{
    if steps < least {
        PeekError::Behind(steps)
    } else {
        PeekError::NoMemory
    }
}
