// What is on the disk of a site, in whichever form it is.
ghost use Rattle.std.specs.Prelude.{◌≡◌, ℕ, List, Some, IfOk, IsErrOf, take};
ghost use Rattle.std.specs.Str.{bytes_eq};
ghost use Rattle.pv_base.specs.Answer.{Answers};
ghost use Rattle.pv_disk.specs.declared.disk_error.LookError.TheVariants as LookError;
ghost use Rattle.pv_journal.specs.Opening.{contents_in, place_in};
ghost use Rattle.pv_law_calls.specs.Reading.{LooksBy};
ghost use Rattle.pv_law_checkpoints.specs.Roots.{start};
ghost use Rattle.pv_show.specs.SiteText.{IsFoundIn, log, no_log};

use pv_ckpt::HEADER;
use pv_disk::{Disk, LookError};
use pv_journal::{read_from, size_of_disk};
use std::alloc::Global;

/// The contents of the log on a disk: of one in two areas where the disk begins as such a log does, and else of a journal. It only reads.
///
/// - [`LookError::Failed`]: the disk failed, and counted the fault.
/// - [`LookError::NotOurs`]: the disk holds no log of that form, which shows at that place.
/// - [`LookError::NoMemory`]: there was no memory.
#[tactic(auto, using(pv_law_calls::proofs::LookLemmas::looking))]
pub(crate) fn look<D: Disk>(alloc: Global, disk: &mut D) -> Result<Vec<Vec<u8>>, LookError>
    ensures answer { (bytes : List ℕ) → D.model.content disk.old ≡ Some bytes →
        Answers (λ contents. IsFoundIn bytes (log contents)) (λ place. IsFoundIn bytes (no_log place)) contents_in place_in result }
    ensures effect { LooksBy D.model disk.old disk.new result }
{
    match begins_in_two_areas(disk) {
        Ok(true) => pv_ckpt::look(alloc, disk),
        Ok(false) => pv_journal::look(alloc, disk),
        Err(e) => Err(e),
    }
}

// Whether the disk begins as a log in two areas does.
#[tactic(auto, using(pv_law_calls::proofs::LookLemmas::looking))]
fn begins_in_two_areas<D: Disk>(disk: &mut D) -> Result<bool, LookError>
    ensures effect { LooksBy D.model disk.old disk.new result }
    ensures begins { IfOk result (λ begins. (bytes : List ℕ) → D.model.content disk.old ≡ Some bytes → begins ≡ bytes_eq (take 8 bytes) start) }
    ensures not_ours { (at : ℕ) → IsErrOf result (LookError.NotOurs at) → ⊥ }
{
    if size_of_disk(disk)? < 8 {
        return Ok(false);
    }
    let mut front = [0; 8];
    read_from(disk, 0, &mut front)?;
    Ok(front == HEADER)
}
