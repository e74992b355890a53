// Laws on what a checkpoint makes of the bytes of a log in two areas. The functions here do nothing: each states a law.
ghost use Rattle.std.specs.Prelude.{◌≡◌, ◌==◌, ◌<◌, ◌^◌, ◌+◌, ◌≤◌, ◌++◌, ℕ, List, length, false};
ghost use Rattle.pv_base.specs.declared.limits.TheConstants.{MAX_JOURNAL};
ghost use Rattle.pv_base.specs.declared.mode.Mode.{Mode};
ghost use Rattle.pv_disk_model.specs.Disk.{Torn};
ghost use Rattle.pv_disk_model.specs.Size.{Contents, size_of};
ghost use Rattle.pv_law_checkpoints.specs.Roots.{gate_at, number_at, other_root, place_at};
ghost use Rattle.pv_format.specs.Checkpoint.{MayLeave, MayLeaveInAll, Part, Standing, left_by, parts_of, shut, storing};
ghost use Rattle.pv_law_checkpoints.specs.Stages.{IsBeforeOrGiven, IsBlockPlace, IsLeft, IsNext, IsPacked, IsUnderWay, LeadsOn, Stands, free_place, greatest_length, made_by, made_by_all, standing_at, writes, writes_at};
ghost use Rattle.pv_law_checkpoints.specs.TwoAreas.{IsLog, block_of, end_at};

/// A log that isn't too long, and whose number can be raised, is ready for a checkpoint with given contents within the limit in its block. Each part of it makes what the next
/// one needs, and the last a log of the given contents, all in the block of the other root, with a number in force that is one more.
pub fn parts_lead_on()
    ensures begin { (at : ℕ) (packed later given : Contents) (bytes : List ℕ) →
        IsLog at packed later bytes → size_of (packed ++ later) ≤ greatest_length → size_of given ≤ MAX_JOURNAL → number_at bytes at + 1 < 2 ^ 64 →
        IsNext storing at (free_place (length (block_of given)) (place_at bytes at) (end_at bytes at later)) packed later given bytes }
    ensures lead { (part : Part) (at place : ℕ) (packed later given : Contents) (bytes : List ℕ) →
        IsNext part at place packed later given bytes → LeadsOn part at place packed later given bytes (made_by part at place given bytes) }
{}

/// A whole checkpoint makes a log of the given contents, all in the block of the other root, which is in force with a number that is one more. The gate behind the
/// block is closed, and that of the root that was in force stays 1.
pub fn checkpoints_pack()
    ensures { (at place : ℕ) (packed later given : Contents) (bytes : List ℕ) →
        IsNext storing at place packed later given bytes →
        IsPacked at given (standing_at bytes at) (made_by_all (parts_of (gate_at bytes (other_root at) == 1)) at place given bytes) }
{}

/// The new block of a checkpoint, with the gate behind it, lies behind the roots, at a place in range that isn't past the end of the bytes, and apart from the
/// area in force and its closed gate.
pub fn blocks_lie_apart()
    ensures { (at place : ℕ) (packed later given : Contents) (bytes : List ℕ) →
        IsNext storing at place packed later given bytes →
        IsBlockPlace place (length (block_of given)) (place_at bytes at) (end_at bytes at later) × (place ≤ length bytes) }
{}

/// A crash at any moment of a checkpoint leaves a log of the contents before or of the given ones: of the former where the number in force is as it was, of the latter where it is
/// one more. That number, and whether the gate of the other root is 1, are among what the part may leave in which the crash came, and with the contents among what the whole
/// checkpoint may leave. Where the given contents are those before, it leaves them.
pub fn crashes_keep_the_contents()
    ensures either { (part : Part) (at place : ℕ) (packed later given : Contents) (bytes left : List ℕ) →
        IsNext part at place packed later given bytes →
        Torn (writes_at part at place) (length (writes part (number_at bytes at) place given)) bytes left →
        IsLeft part (standing_at bytes at) (packed ++ later) given left }
    ensures in_all { (part : Part) (was now : Standing) (before given : Contents) (left : List ℕ) →
        IsUnderWay was now → IsLeft part now before given left → IsBeforeOrGiven given was before left }
    ensures same { (part : Part) (was : Standing) (contents : Contents) (left : List ℕ) →
        IsLeft part was contents contents left → (now : Standing) × Stands contents now left × MayLeave part was now }
{}

/// What a stop or a fault in a schedule leaves is among what a crash at any moment of the same part may leave, and that is among what a crash at any moment of the
/// whole checkpoint may leave. Where the other gate isn't 1, its closing changes nothing.
pub fn stops_are_crashes()
    ensures left { (part : Part) (mode : Mode) (was : Standing) → MayLeave part was (left_by part mode was) }
    ensures in_all { (part : Part) (was now left : Standing) → IsUnderWay was now → MayLeave part now left → MayLeaveInAll was left }
    ensures shut { (was : Standing) → was.other_open ≡ false → shut was ≡ was }
{}
