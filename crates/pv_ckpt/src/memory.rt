// What is true of logs in two areas on disks in memory. The functions do nothing: each states a law.
ghost use Rattle.std.specs.Prelude.{◌≡◌, ◌≤◌, ◌<◌, ◌^◌, ◌-◌, ◌⊎◌, ℕ, Bool, true, false, [], ◌∷◌, List, Option, Some, None, length, Result, Ok, Err};
ghost use Rattle.pv_disk.specs.MemDisk.{MemGoes, MemState};
ghost use Rattle.pv_disk.specs.MemImage.{settled_at};
ghost use Rattle.pv_disk.specs.MemLaws.{mem_model};
ghost use Rattle.pv_disk.specs.declared.arms.Arm.{Arm};
ghost use Rattle.pv_disk_model.specs.Calls.{Makes, OnlyReads, append, read_all, reserve};
ghost use Rattle.pv_disk_model.specs.Size.{Contents};
ghost use Rattle.pv_format.specs.Checkpoint.{Standing, first_standing};
ghost use Rattle.pv_ckpt.specs.Armed.{AppendsArmed, Holds, HoldsUp, PacksArmed, SyncsArmed};
ghost use Rattle.pv_ckpt.specs.Checkpointing.{CheckpointMakes};
ghost use Rattle.pv_ckpt.specs.CkptLog.{IsIntact, LogGoes};
ghost use Rattle.pv_ckpt.specs.Opening.{Formats, Opens};
ghost use Rattle.pv_ckpt.specs.declared.ckpt_log.CkptLog.{CkptLog};
ghost use Rattle.pv_ckpt.specs.declared.open_ckpt.OpenCkpt.TheVariants.{Failed, NotOurs};

/// On a disk in memory that holds a log in two areas, all of it synced, and on which a fault may be armed:
///
/// - Calls that only read leave the disk as it is, and a log's reading leaves the log. The log knows the number in force.
/// - An append with its room makes four writes and syncs. Where the fault is armed for a later one, or none is, it succeeds, and the fault is
///   four calls nearer. Else it fails, the fault fires and is armed no more, and the log has the new content exactly where the fault was
///   armed for the third or the fourth call and keeps what was written. Where there was no room it fails, and all is as it was. The number in
///   force and the gate of the other root stay.
/// - A checkpoint makes eight writes and syncs, or six where the gate of the other root isn't 1. Where the fault is armed for a later one, or none
///   is, it succeeds. Else it fails, the fault fires and is armed no more, and the number in force and the gate of the other root are as the
///   table of its parts has it. Where there was no memory it fails, and all is as it was. The contents stay.
/// - An opening makes one sync and then reads. Where the fault is armed for a later call, or none is, the log is opened, and the fault is
///   one call nearer. Where the fault is armed for the sync the opening fails, and the fault fires and leaves the contents.
pub fn armed_logs()
    ensures looks { (old new : MemState) → OnlyReads MemGoes old new → old.arms.fail_read ≡ None → new ≡ old }
    ensures intact { (contents : Contents) (standing : Standing) (armed : Option Arm) (log : CkptLog MemState) → IsIntact mem_model log → log.down ≡ false →
        Holds contents standing armed None log.disk → HoldsUp contents standing armed log }
    ensures numbers { (contents : Contents) (standing : Standing) (armed : Option Arm) (log : CkptLog MemState) → HoldsUp contents standing armed log →
        log.root.number ≡ standing.number }
    ensures reads { (contents : Contents) (standing : Standing) (armed : Option Arm) (old new : CkptLog MemState) (ok : Bool) → HoldsUp contents standing armed old →
        LogGoes mem_model old read_all ok new → Holds contents standing armed None new.disk × (ok ≡ true → HoldsUp contents standing armed new) }
    ensures appends { (contents : Contents) (standing : Standing) (armed : Option Arm) (old new : CkptLog MemState) (content : List ℕ) (ok : Bool) →
        HoldsUp contents standing armed old → Makes (LogGoes mem_model) old (reserve (length content) ∷ append content ∷ []) ok new →
        AppendsArmed contents standing content armed ok new.disk ⊎ ((ok ≡ false) × Holds contents standing armed None new.disk) }
    ensures packs { (contents : Contents) (standing : Standing) (armed : Option Arm) (old new : CkptLog MemState) (ok : Bool) →
        IsIntact mem_model old → HoldsUp contents standing armed old → old.length ≤ old.limit → old.root.number < 2 ^ 64 - 1 → CheckpointMakes mem_model old new ok →
        PacksArmed contents standing armed ok new.disk ⊎ ((ok ≡ false) × Holds contents standing armed None new.disk) }
    ensures opens { (contents : Contents) (standing : Standing) (armed : Option Arm) (old : MemState) (limit : ℕ) (log : CkptLog MemState) →
        Holds contents standing armed None old → Opens mem_model old limit (Ok log) → SyncsArmed contents standing armed true log.disk }
    ensures fails { (contents : Contents) (standing : Standing) (armed : Option Arm) (old : MemState) (limit : ℕ) (disk : MemState) →
        Holds contents standing armed None old → Opens mem_model old limit (Err (Failed disk)) →
        SyncsArmed contents standing armed false disk ⊎ SyncsArmed contents standing armed true disk }
    ensures ours { (contents : Contents) (standing : Standing) (armed : Option Arm) (old : MemState) (limit : ℕ) (disk : MemState) (place : ℕ) →
        Holds contents standing armed None old → Opens mem_model old limit (Err (NotOurs disk place)) → ⊥ }
{}

/// Formatting an empty disk in memory on which nothing is armed makes an empty log, all of it synced, whose root 0 is in force with the number 1.
pub fn formatted_logs()
    ensures { (old new : MemState) → old.image.content ≡ [] → old.image.now ≡ settled_at [] → old.arms.armed ≡ None → old.arms.fired ≡ None →
        old.arms.fail_read ≡ None → (x : Unit {0}) → Formats mem_model {X = Unit {0}} old new (Ok x) → Holds [] first_standing None None new }
{}
