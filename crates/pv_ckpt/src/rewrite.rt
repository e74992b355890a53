// Rewritings: a switch to given contents in place of the log's own.
ghost use Rattle.std.specs.Prelude.{◌≡◌, ◌≤◌, ◌<◌, ◌^◌, ◌++◌, length, IfOk, OnOk};
ghost use Rattle.pv_base.specs.declared.limits.TheConstants.{MAX_JOURNAL};
ghost use Rattle.pv_disk_model.specs.Size.{size_of};
ghost use Rattle.pv_format.specs.Journal.{framed};
ghost use Rattle.pv_law_checkpoints.specs.Stages.{greatest_length};
ghost use Rattle.pv_law_checkpoints.specs.TwoAreas.{block_of};
ghost use Rattle.pv_ckpt.specs.CkptLog.{IsIntact};
ghost use Rattle.pv_ckpt.specs.Rewriting.{contents_of, Rewrites};

use crate::{CkptError, CkptLog};
use pv_base::NoMemory;
use pv_bytes::Put;
use pv_disk::Disk;
use std::alloc::Global;

impl<D: Disk> CkptLog<D> {
    /// Puts these contents in place of all that the log has, packed, and switches to them at one moment. It makes the writes and syncs of a checkpoint with these contents in its
    /// block, and reads nothing.
    ///
    /// They have to be within the log's limit. The log may be above it, up to 34,359,738,368 bytes, so that the new block's place is in its range. At each moment of the call a crash
    /// leaves the contents before or these, and after `Ok` these. The refusals are those of [`CkptLog::checkpoint`]; after [`CkptError::NoMemory`] all is as it was.
    pub fn rewrite(&mut self, contents: &[Vec<u8>]) -> Result<(), CkptError>
        requires intact { IsIntact D.model self.old }
        requires within { size_of (contents_of contents.now) ≤ self.old.limit }
        requires reach { self.old.length ≤ greatest_length }
        ensures effect { Rewrites D.model self.old self.new (contents_of contents.now) result }
        ensures intact { IsIntact D.model self.new }
    {
        if self.down {
            return Err(CkptError::Down);
        }
        if self.root.number == u64::MAX {
            return Err(CkptError::Spent);
        }
        let length = length_of(contents);
        let Ok(block) = block_of(*self.frame.allocator(), contents, length) else {
            return Err(CkptError::NoMemory);
        };
        self.switch_to(block, length)
    }
}

// How long a log with these contents is.
fn length_of(contents: &[Vec<u8>]) -> u64
    requires { size_of (contents_of contents.now) ≤ MAX_JOURNAL }
    ensures { result ≡ size_of (contents_of contents.now) }
{
    let mut length = 9;
    for content in contents {
        length += 5 + content.len() as u64;
    }
    length
}

// The block of these contents, each with its length before it. It takes room for a log of them at once.
fn block_of(alloc: Global, contents: &[Vec<u8>], length: u64) -> Result<Vec<u8>, NoMemory>
    requires { size_of (contents_of contents.now) ≤ MAX_JOURNAL }
    ensures { IfOk result (λ block. block.items ≡ block_of (contents_of contents.now)) }
{
    let mut block = Put::with_room(alloc, length as usize)?;
    for content in contents {
        put_framed(&mut block, content)?;
    }
    Ok(block.done())
}

// Puts a content, with its length before it, after what the block holds.
fn put_framed(block: &mut Put, content: &[u8]) -> Result<(), NoMemory>
    requires { length content.now < 2 ^ 32 }
    ensures { OnOk result (block.new.bytes ≡ block.old.bytes ++ framed content.now) }
{
    block.u32(content.len() as u32)?;
    block.bytes(content)
}
