// That refusals hold, and have their causes.
ghost use Rattle.std.specs.Prelude.{ℕ, All, List};
ghost use Rattle.pv_law_world.specs.Ranges.{with_limits};
ghost use Rattle.pv_model.specs.Events.{Event, Schedule};
ghost use Rattle.pv_model.specs.Schedule.{IsSchedule};
ghost use Rattle.pv_protocol.specs.Anywhere.{IsRunWithFaults};
ghost use Rattle.pv_protocol.specs.Causes.{RefusalsHold};
ghost use Rattle.pv_protocol.specs.Run.{run};
ghost use Rattle.pv_protocol.specs.State.{Setup};
ghost use Rattle.pv_protocol.specs.WellFormed.{IsWellFormed};
ghost use Rattle.pv_protocol.specs.World.{opening};
ghost use Rattle.pv_protocol.specs.WorldStep.{Transition};

/// A transaction that a run prints as refused is neither committed nor open, in that world and in every later one, in whatever writes and
/// syncs its sites stop; and the refusal has its cause.
pub fn refusals_hold()
    ensures run { (setup : Setup) (events : List Event) → All (IsWellFormed setup.catalog) events →
        RefusalsHold setup (opening setup) (run setup (opening setup) events) }
    ensures faults { (setup : Setup) (transitions : List Transition) → IsRunWithFaults setup (opening setup) transitions →
        RefusalsHold setup (opening setup) transitions }
{}

/// So it is in the run of every schedule's text.
pub fn texts_refuse_for_causes()
    ensures { (text : List ℕ) (schedule : Schedule) (read_names held_names : ℕ) → IsSchedule text schedule →
        let setup = with_limits schedule.catalog read_names held_names in RefusalsHold setup (opening setup) (run setup (opening setup) schedule.events) }
{}
