// What an append to a log on a disk in memory comes to, where a fault may be armed. The function does nothing: it states a law.
ghost use Rattle.std.specs.Prelude.{◌≡◌, ◌⊎◌, ℕ, Bool, false, List, [], ◌∷◌, Option, None, length};
ghost use Rattle.pv_disk.specs.MemLaws.{mem_model};
ghost use Rattle.pv_disk.specs.MemDisk.{MemState};
ghost use Rattle.pv_disk.specs.declared.arms.Arm.{Arm};
ghost use Rattle.pv_disk_model.specs.Calls.{Makes, append, reserve};
ghost use Rattle.pv_disk_model.specs.Size.{Contents};
ghost use Rattle.pv_format.specs.Checkpoint.{Standing};
ghost use Rattle.pv_ckpt.specs.Armed.{Holds, HoldsUp};
ghost use Rattle.pv_ckpt.specs.CkptLog.{LogGoes};
ghost use Rattle.pv_ckpt.specs.declared.ckpt_log.CkptLog.{CkptLog};
ghost use Rattle.pv_moored.specs.Reached.{AppendsBy, reached};

use pv_ckpt::armed_logs;

/// An append with its room makes four writes and syncs. It succeeds where what is armed isn't for one of these, and else it fails, and what fires leaves the contents with the new
/// one or without it. Where there was no room it fails, and nothing is written.
pub fn appends_to_moored_logs()
    ensures { (contents : Contents) (standing : Standing) (armed : Option Arm) (old new : CkptLog MemState) (content : List ℕ) (ok : Bool) →
        HoldsUp contents standing armed old → Makes (LogGoes mem_model) old (reserve (length content) ∷ append content ∷ []) ok new →
        AppendsBy contents standing content ok new.disk (reached 4 armed) ⊎ ((ok ≡ false) × Holds contents standing armed None new.disk) }
{
    armed_logs();
}
