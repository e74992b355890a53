// The contents of a log with their old spellings replaced.
ghost use Rattle.std.specs.Prelude.{◌≡◌, ◌+◌, ◌^◌, ◌++◌, ◌∷◌, [], ◌<◌, ◌≤◌, List, length, IfOk, OnOk};
ghost use Rattle.pv_disk_model.specs.Size.{Contents};
ghost use Rattle.pv_replay.specs.Values.{contents_of};
ghost use Rattle.pv_upgrade.specs.Renewed.{IsRenewed};

use pv_base::NoMemory;
use pv_replay::respelled;
use std::alloc::Global;

/// Contents with their old spellings replaced.
#[derive(Drop)]
pub(crate) struct Renewed {
    /// They, in their order.
    pub(crate) contents: Vec<Vec<u8>>,
    /// How many were replaced.
    pub(crate) count: u64,
    /// The length of a log with these contents.
    pub(crate) length: u64,
}

/// These contents with their old spellings replaced. Takes time in proportion to their bytes.
pub(crate) fn renew_all(alloc: Global, contents: Vec<Vec<u8>>) -> Result<Renewed, NoMemory>
    ensures { IfOk result (IsRenewed (contents_of contents.items)) }
{
    let mut renewed = Renewed {
        contents: Vec::with_capacity(alloc, contents.len())?,
        count: 0,
        length: 9,
    };
    for content in contents {
        renewed.renew(alloc, content)?;
    }
    Ok(renewed)
}

impl Renewed {
    // Puts the content, or what replaces it, behind those that are done.
    fn renew(&mut self, alloc: Global, content: Vec<u8>) -> Result<(), NoMemory>
        requires { self.old.count ≤ self.old.length }
        ensures { (done : Contents) → IsRenewed done self.old → OnOk result (IsRenewed (done ++ content.items ∷ []) self.new) }
    {
        match respelled(alloc, &content)? {
            Some(bytes) => {
                self.push(bytes)?;
                self.count += 1;
                Ok(())
            }
            None => self.push(content),
        }
    }

    // Puts the content behind those that are done.
    fn push(&mut self, content: Vec<u8>) -> Result<(), NoMemory>
        ensures contents { OnOk result (contents_of self.new.contents.items ≡ contents_of self.old.contents.items ++ content.items ∷ []) }
        ensures length { OnOk result (self.new.length ≡ self.old.length + (5 + length content.items)) }
        ensures fits { OnOk result (self.new.length < 2 ^ 64) }
        ensures count { self.new.count ≡ self.old.count }
    {
        // So much there isn't in any memory.
        let Some(length) = self.length.checked_add(5 + content.len() as u64) else {
            return Err(NoMemory);
        };
        self.contents.push(content)?;
        self.length = length;
        Ok(())
    }
}
