// Laws on the bytes of logs in two areas. The functions here do nothing: each states a law.
ghost use Rattle.std.specs.Prelude.{◌≡◌, ◌↔◌, ℕ, List, [], Some, false, length, true};
ghost use Rattle.pv_base.specs.Answer.{HasOneAnswer};
ghost use Rattle.pv_disk_model.specs.Size.{Contents};
ghost use Rattle.pv_law_checkpoints.specs.LogContents.{log_contents_of};
ghost use Rattle.pv_law_checkpoints.specs.Roots.{place_at};
ghost use Rattle.pv_format.specs.Checkpoint.{Standing, parts_of};
ghost use Rattle.pv_law_checkpoints.specs.Stages.{free_place, made_by_all, standing_at};
ghost use Rattle.pv_law_checkpoints.specs.TwoAreas.{IsTwoAreas, IsLog, IsNotOurs, block_of, end_at, formatted};
ghost use Rattle.pv_law_checkpoints.specs.Worked.{appended, packed_once, packed_twice, three};

/// Bytes are a log in two areas with exactly one list of contents, or show at exactly one place that they are none, and never both.
pub fn one_log()
    ensures { (bytes : List ℕ) → HasOneAnswer (λ contents. IsTwoAreas contents bytes) (IsNotOurs bytes) }
{}

/// Bytes read as these contents exactly where they are a log in two areas with them.
pub fn contents_are_those_of_the_log()
    ensures { (contents : Contents) (bytes : List ℕ) → (log_contents_of bytes ≡ Some contents) ↔ IsTwoAreas contents bytes }
{}

/// What formatting makes are 59 bytes of a log without contents. The number in force is 1, and the gate of the other root isn't 1.
pub fn formatted_is_empty()
    ensures log { IsLog 8 [] [] formatted }
    ensures stands { standing_at formatted 8 ≡ record { number = 1; other_open = false } }
    ensures length { length formatted ≡ 59 }
{}

/// A worked example: three records behind the empty block of a formatted log, 116 bytes; a first checkpoint, which puts the block behind them at 116; and a second
/// one, which puts it at 58. Each of the two leaves 171 bytes with the three contents in the block.
pub fn three_contents_are_packed_twice()
    ensures appended { IsLog 8 [] three appended × (length appended ≡ 116) }
    ensures places { (free_place (length (block_of three)) (place_at appended 8) (end_at appended 8 three) ≡ 116)
        × (free_place (length (block_of three)) (place_at packed_once 33) (end_at packed_once 33 []) ≡ 58) }
    ensures first { made_by_all (parts_of false) 8 116 three appended ≡ packed_once }
    ensures first_log { IsLog 33 three [] packed_once × (length packed_once ≡ 171) × (standing_at packed_once 33 ≡ record { number = 2; other_open = true }) }
    ensures second { made_by_all (parts_of true) 33 58 three packed_once ≡ packed_twice }
    ensures second_log { IsLog 8 three [] packed_twice × (length packed_twice ≡ 171) × (standing_at packed_twice 8 ≡ record { number = 3; other_open = true }) }
{}
