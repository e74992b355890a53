// Laws of starts.
ghost use Rattle.std.specs.Prelude.{◌<◌, ◌≤◌, ℕ, All, List};
ghost use Rattle.pv_base.specs.declared.limits.TheConstants.{HELD_NAMES};
ghost use Rattle.pv_law_events.specs.Replays.{AreReplayable};
ghost use Rattle.pv_law_world.specs.Ranges.{with_limits};
ghost use Rattle.pv_model.specs.Events.{Event, Schedule};
ghost use Rattle.pv_model.specs.Schedule.{IsSchedule};
ghost use Rattle.pv_protocol.specs.Anywhere.{IsRunWithFaults};
ghost use Rattle.pv_protocol.specs.Run.{run, worlds_of};
ghost use Rattle.pv_protocol.specs.Sound.{IsSetupInRange};
ghost use Rattle.pv_protocol.specs.State.{Setup};
ghost use Rattle.pv_protocol.specs.WellFormed.{IsWellFormed};
ghost use Rattle.pv_protocol.specs.World.{opening};
ghost use Rattle.pv_protocol.specs.WorldStep.{Transition};

use pv_law_world::{
    any_runs_stay_in_range, runs_of_texts_stay_in_range, runs_stay_in_range, schedules_are_in_range,
};

/// In every world of every run, wherever sites stop, each site can read its records anew: no start finds a record that it can't read, or
/// a value that names too many outcomes.
pub fn starts_find_sound_records()
    ensures run { (setup : Setup) (events : List Event) → IsSetupInRange setup → All (IsWellFormed setup.catalog) events →
        All (AreReplayable setup) (worlds_of (opening setup) (run setup (opening setup) events)) }
    ensures faults { (setup : Setup) (transitions : List Transition) → IsSetupInRange setup → IsRunWithFaults setup (opening setup) transitions →
        All (AreReplayable setup) (worlds_of (opening setup) transitions) }
{
    any_runs_stay_in_range();
    runs_stay_in_range();
}

/// And so in every world of the run of a schedule's text, and of every run over the text's catalog, wherever its sites stop.
pub fn starts_of_texts_find_sound_records()
    ensures run { (text : List ℕ) (schedule : Schedule) (read_names held_names : ℕ) → IsSchedule text schedule →
        read_names < held_names → held_names ≤ HELD_NAMES → let setup = with_limits schedule.catalog read_names held_names in
        All (AreReplayable setup) (worlds_of (opening setup) (run setup (opening setup) schedule.events)) }
    ensures faults { (text : List ℕ) (schedule : Schedule) (read_names held_names : ℕ) (transitions : List Transition) → IsSchedule text schedule →
        read_names < held_names → held_names ≤ HELD_NAMES → let setup = with_limits schedule.catalog read_names held_names in
        IsRunWithFaults setup (opening setup) transitions → All (AreReplayable setup) (worlds_of (opening setup) transitions) }
{
    runs_of_texts_stay_in_range();
    schedules_are_in_range();
}
