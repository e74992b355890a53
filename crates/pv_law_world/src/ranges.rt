// Worlds stay in range.
ghost use Rattle.std.specs.Prelude.{◌<◌, ◌≤◌, ℕ, List, All};
ghost use Rattle.pv_base.specs.declared.limits.TheConstants.{HELD_NAMES};
ghost use Rattle.pv_law_world.specs.Ranges.{IsWorldInRange, with_limits};
ghost use Rattle.pv_model.specs.Events.{Event, Schedule};
ghost use Rattle.pv_model.specs.Schedule.{IsSchedule};
ghost use Rattle.pv_protocol.specs.Anywhere.{IsRunWithFaults};
ghost use Rattle.pv_protocol.specs.Run.{run, worlds_of};
ghost use Rattle.pv_protocol.specs.Sound.{IsSetupInRange};
ghost use Rattle.pv_protocol.specs.State.{Setup};
ghost use Rattle.pv_protocol.specs.WellFormed.{IsWellFormed};
ghost use Rattle.pv_protocol.specs.World.{World, opening};
ghost use Rattle.pv_protocol.specs.WorldStep.{transition_of, Transition};

use crate::runs::schedules_are_well_formed;
use pv_law_step::{
    no_records_are_narrow, sends_are_in_range, starts_are_sound, starts_keep_width,
    steps_stay_sound,
};

/// A well-formed event leaves a world in range that is, also where it stops a site: each site's records are in range, its values
/// narrow and its journal within the limit, and each message that was sent has a spelling.
pub fn worlds_stay_in_range()
    ensures { (setup : Setup) (world : World) (event : Event) → IsSetupInRange setup → IsWorldInRange setup world → IsWellFormed setup.catalog event →
        IsWorldInRange setup (transition_of setup world event).world }
{
    sends_are_in_range();
    steps_stay_sound();
    starts_are_sound();
}

/// Every world of a run is in range, in whatever writes and syncs its sites stop: no start finds a record that isn't one or a value
/// that is too wide, and each message that is sent has a spelling.
pub fn any_runs_stay_in_range()
    ensures { (setup : Setup) (transitions : List Transition) → IsSetupInRange setup → IsRunWithFaults setup (opening setup) transitions →
        All (IsWorldInRange setup) (worlds_of (opening setup) transitions) }
{
    sends_are_in_range();
    steps_stay_sound();
    starts_are_sound();
    no_records_are_narrow();
    starts_keep_width();
}

/// The same of a run of well-formed events.
pub fn runs_stay_in_range()
    ensures { (setup : Setup) (events : List Event) → IsSetupInRange setup → All (IsWellFormed setup.catalog) events →
        All (IsWorldInRange setup) (worlds_of (opening setup) (run setup (opening setup) events)) }
{
    sends_are_in_range();
    steps_stay_sound();
    starts_are_sound();
    no_records_are_narrow();
    starts_keep_width();
}

/// In a world in range each message that was sent goes from one of the catalog's sites to one of them.
pub fn receivers_are_sites()
    ensures { (setup : Setup) (world : World) → IsWorldInRange setup world →
        All (λ envelope. (envelope.from < setup.catalog.sites) × (envelope.to < setup.catalog.sites)) world.sent }
{}

/// What a schedule's text declares is in range, with limits on names that may be.
pub fn schedules_are_in_range()
    ensures { (text : List ℕ) (schedule : Schedule) (read_names held_names : ℕ) → IsSchedule text schedule →
        read_names < held_names → held_names ≤ HELD_NAMES → IsSetupInRange (with_limits schedule.catalog read_names held_names) }
{}

/// In every world of the run of a schedule's text all records and messages are in range, and so they are in every world of a run
/// over the text's catalog, in whatever writes and syncs its sites stop.
pub fn runs_of_texts_stay_in_range()
    ensures run { (text : List ℕ) (schedule : Schedule) (read_names held_names : ℕ) → IsSchedule text schedule →
        read_names < held_names → held_names ≤ HELD_NAMES → let setup = with_limits schedule.catalog read_names held_names in
        All (IsWorldInRange setup) (worlds_of (opening setup) (run setup (opening setup) schedule.events)) }
    ensures faults { (text : List ℕ) (schedule : Schedule) (read_names held_names : ℕ) (transitions : List Transition) → IsSchedule text schedule →
        read_names < held_names → held_names ≤ HELD_NAMES → let setup = with_limits schedule.catalog read_names held_names in
        IsRunWithFaults setup (opening setup) transitions → All (IsWorldInRange setup) (worlds_of (opening setup) transitions) }
{
    any_runs_stay_in_range();
    runs_stay_in_range();
    schedules_are_in_range();
    schedules_are_well_formed();
}
