// An output that was released, until the host takes it.
ghost use Rattle.std.specs.Prelude.{◌≡◌, ◌<◌, ◌≤◌, ◌++◌, ◌∷◌, [], ℕ, All};
ghost use Rattle.std.specs.VecDeque.{deque_capacity, deque_len};
ghost use Rattle.pv_embed_outbox.specs.Hosted.{TakesFirst};

use crate::TakeFault;
use std::collections::VecDeque;

/// An output that was released, and how long the log was once it had the record of that.
#[derive(Clone, Copy, Debug, Drop)]
pub struct Release {
    /// How long the log was.
    pub length: u64,
    /// The output.
    pub output: u32,
}

/// Adds a release behind the others. There is room for it.
pub(crate) fn keep(queue: &mut VecDeque<Release>, release: Release)
    requires { deque_len queue.old < deque_capacity queue.old }
    ensures kept { queue.new.items ≡ queue.old.items ++ release ∷ [] }
{
    queue.push_back_reserved(release);
}

/// Takes the first of the releases, where so much of the log is in the file as there was when its record was added.
pub(crate) fn take_first(queue: &mut VecDeque<Release>, stored: u64) -> Result<u32, TakeFault>
    ensures { TakesFirst stored queue.old.items queue.new.items result }
{
    let Some(release) = queue.front() else {
        return Err(TakeFault::Nothing);
    };
    if release.length > stored {
        return Err(TakeFault::Unwritten);
    }
    let output = release.output;
    queue.pop_front();
    Ok(output)
}
