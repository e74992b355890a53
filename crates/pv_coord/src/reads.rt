// Copies of what was read.
ghost use Rattle.std.specs.Prelude.{◌≡◌, ◌++◌, OnOk, IfOk};

use pv_base::NoMemory;
use pv_tree::Read;
use std::alloc::Global;

/// Appends a copy of each of these to the list. After an error nothing is promised of what the list holds.
pub(crate) fn push_reads(
    alloc: Global,
    list: &mut Vec<Read>,
    reads: &[Read],
) -> Result<(), NoMemory>
    ensures { OnOk result (list.new.items ≡ list.old.items ++ reads.now) }
{
    for read in reads {
        let value = read.value.copy(alloc)?;
        list.push(Read {
            item: read.item,
            value,
        })?;
    }
    Ok(())
}

/// Copies of these.
pub(crate) fn copy_reads(alloc: Global, reads: &[Read]) -> Result<Vec<Read>, NoMemory>
    ensures { IfOk result (λ copies. copies.items ≡ reads.now) }
{
    let mut copies = Vec::with_capacity(alloc, reads.len())?;
    push_reads(alloc, &mut copies, reads)?;
    Ok(copies)
}
