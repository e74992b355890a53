// What is true of journals on disks in memory. The functions do nothing: each states a law.
ghost use Rattle.std.specs.Prelude.{◌≡◌, ◌⊎◌, ℕ, Bool, true, false, [], ◌∷◌, List, Option, Some, None, length, Result, Ok, Err};
ghost use Rattle.pv_disk.specs.MemDisk.{MemGoes, MemState};
ghost use Rattle.pv_disk.specs.MemImage.{settled_at};
ghost use Rattle.pv_disk.specs.MemLaws.{mem_model};
ghost use Rattle.pv_disk.specs.declared.arms.Arm.{Arm};
ghost use Rattle.pv_journal.specs.Armed.{AppendsArmed, Holds, HoldsUp, SyncsArmed};
ghost use Rattle.pv_journal.specs.Journal.{IsIntact, JournalGoes};
ghost use Rattle.pv_journal.specs.Opening.{Formats, Opens};
ghost use Rattle.pv_journal.specs.declared.journal.Journal.{Journal};
ghost use Rattle.pv_journal.specs.declared.open_log.OpenLog.TheVariants.{Failed, NotOurs};
ghost use Rattle.pv_disk_model.specs.Calls.{Makes, OnlyReads, append, read_all, reserve};
ghost use Rattle.pv_disk_model.specs.Size.{Contents};

/// On a disk in memory that holds a journal, all of it synced, and on which a fault may be armed:
///
/// - Calls that only read leave the disk as it is, and a journal's reading leaves the journal.
/// - An append with its room makes four writes and syncs. Where the fault is armed for a later one, or none is, it succeeds, and the fault is
///   four calls nearer. Else it fails, the fault fires and is armed no more, and the journal has the new content exactly where the fault was
///   armed for the third or the fourth call and keeps what was written. Where there was no room it fails, and all is as it was.
/// - An opening makes one sync and then reads. Where the fault is armed for a later call, or none is, the journal is opened, and the fault is
///   one call nearer. Where the fault is armed for the sync the opening fails, and the fault fires and leaves the contents.
pub fn armed_journals()
    ensures looks { (old new : MemState) → OnlyReads MemGoes old new → old.arms.fail_read ≡ None → new ≡ old }
    ensures intact { (contents : Contents) (armed : Option Arm) (journal : Journal MemState) → IsIntact mem_model journal → journal.down ≡ false →
        Holds contents armed None journal.disk → HoldsUp contents armed journal }
    ensures reads { (contents : Contents) (armed : Option Arm) (old new : Journal MemState) (ok : Bool) → HoldsUp contents armed old →
        JournalGoes mem_model old read_all ok new → Holds contents armed None new.disk × (ok ≡ true → HoldsUp contents armed new) }
    ensures appends { (contents : Contents) (armed : Option Arm) (old new : Journal MemState) (content : List ℕ) (ok : Bool) → HoldsUp contents armed old →
        Makes (JournalGoes mem_model) old (reserve (length content) ∷ append content ∷ []) ok new →
        AppendsArmed contents content armed ok new.disk ⊎ ((ok ≡ false) × Holds contents armed None new.disk) }
    ensures opens { (contents : Contents) (armed : Option Arm) (old : MemState) (limit : ℕ) (journal : Journal MemState) → Holds contents armed None old →
        Opens mem_model old limit (Ok journal) → SyncsArmed contents armed true journal.disk }
    ensures fails { (contents : Contents) (armed : Option Arm) (old : MemState) (limit : ℕ) (disk : MemState) → Holds contents armed None old →
        Opens mem_model old limit (Err (Failed disk)) → SyncsArmed contents armed false disk ⊎ SyncsArmed contents armed true disk }
    ensures ours { (contents : Contents) (armed : Option Arm) (old : MemState) (limit : ℕ) (disk : MemState) (place : ℕ) → Holds contents armed None old →
        Opens mem_model old limit (Err (NotOurs disk place)) → ⊥ }
{}

/// Formatting an empty disk in memory on which nothing is armed makes an empty journal, all of it synced.
pub fn formatted_journals()
    ensures { (old new : MemState) → old.image.content ≡ [] → old.image.now ≡ settled_at [] → old.arms.armed ≡ None → old.arms.fired ≡ None →
        old.arms.fail_read ≡ None → (x : Unit {0}) → Formats mem_model {X = Unit {0}} old new (Ok x) → Holds [] None None new }
{}
