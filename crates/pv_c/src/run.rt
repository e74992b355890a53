// A whole run, without a slot.
ghost use Rattle.std.specs.Prelude.{length};
ghost use Rattle.pv_c.specs.Run.{PutsText, RunsInto};

use crate::given_text::given;
use crate::status::{NO_MEMORY, TOO_SMALL};
use pv_embed_world::run;
use std::alloc::Global;

/// Runs the schedule that the bytes are, writes what it prints, and says how many bytes that is.
#[unsafe(no_mangle)]
pub extern "C" fn polydb_run(
    alloc: Global,
    input: &[u8],
    out: &mut [u8],
    written: &mut usize,
) -> u32
    ensures { RunsInto input.now out.old out.new written.new result }
{
    let Ok(ran) = run(alloc, given(input)) else {
        *written = 0;
        return NO_MEMORY;
    };
    let text = ran.text.as_slice();
    *written = text.len();
    put(text, ran.status, out)
}

/// Writes a text, if there is room for all of it, and answers this status or that there is too little.
pub fn put(text: &[u8], status: u32, out: &mut [u8]) -> u32
    ensures { PutsText status text.now out.old out.new (length text.now) result }
{
    if out.len() < text.len() {
        return TOO_SMALL;
    }
    let (room, _) = out.split_at_mut(text.len());
    room.copy_from_slice(text);
    status
}
