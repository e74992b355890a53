// Memory to read into.
ghost use Rattle.std.specs.Prelude.{◌≡◌, vec_len, IfOk};

use std::alloc::{AllocError, Global};

/// So many bytes to read into, whatever they are. It promises their count alone, so that no proof about a reader ever writes them out.
pub fn buffer(alloc: Global, count: usize) -> Result<Vec<u8>, AllocError>
    ensures { IfOk result (λ buffer. vec_len buffer ≡ count) }
{
    Ok(vec![in alloc; 0; count]?)
}
