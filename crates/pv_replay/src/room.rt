// Vectors with room from the start, where it is known how much they are to hold.
ghost use Rattle.std.specs.Prelude.{◌≡◌, [], IfOk};

use pv_base::NoMemory;
use std::alloc::Global;

// For how many elements room is made that nothing but a count has told of.
const FEW: usize = 8;

/// An empty vector, with room for so many elements.
pub(crate) fn with_room<T>(alloc: Global, count: usize) -> Result<Vec<T>, NoMemory>
    ensures { IfOk result (λ made. made.items ≡ []) }
{
    Ok(Vec::with_capacity(alloc, count)?)
}

/// An empty vector for so many elements that aren't read yet, with room for the first few: a count is a few bytes that anyone may have written,
/// and takes no more memory than that by itself.
pub(crate) fn with_room_for_few<T>(alloc: Global, count: usize) -> Result<Vec<T>, NoMemory>
    ensures { IfOk result (λ made. made.items ≡ []) }
{
    with_room(alloc, count.min(FEW))
}
