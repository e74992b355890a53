// Laws of whole runs.
ghost use Rattle.std.specs.Prelude.{All, List};
ghost use Rattle.pv_law_events.specs.Reached.{AreReached};
ghost use Rattle.pv_model.specs.Events.{Event};
ghost use Rattle.pv_protocol.specs.Anywhere.{IsRunWithFaults};
ghost use Rattle.pv_protocol.specs.Outcomes.{OutcomesAgree};
ghost use Rattle.pv_protocol.specs.Run.{run, worlds_of};
ghost use Rattle.pv_protocol.specs.State.{Setup};
ghost use Rattle.pv_protocol.specs.WellFormed.{IsWellFormed};
ghost use Rattle.pv_protocol.specs.World.{opening};
ghost use Rattle.pv_protocol.specs.WorldStep.{Transition};

/// Acts lead to each world of a run, and from each to each later one; so what acts keep holds in every world of every run, within a
/// pump too, wherever sites stop.
pub fn runs_are_reached()
    ensures run { (setup : Setup) (events : List Event) → All (IsWellFormed setup.catalog) events →
        AreReached setup (worlds_of (opening setup) (run setup (opening setup) events)) }
    ensures faults { (setup : Setup) (transitions : List Transition) → IsRunWithFaults setup (opening setup) transitions →
        AreReached setup (worlds_of (opening setup) transitions) }
{}

/// In every world of every run, wherever sites stop, no two sites know different outcomes: one that is known to commit is committed,
/// and one that is known not to is neither committed nor open, in that world and in every later one.
pub fn no_two_outcomes_in_runs()
    ensures run { (setup : Setup) (events : List Event) → All (IsWellFormed setup.catalog) events →
        OutcomesAgree (worlds_of (opening setup) (run setup (opening setup) events)) }
    ensures faults { (setup : Setup) (transitions : List Transition) → IsRunWithFaults setup (opening setup) transitions →
        OutcomesAgree (worlds_of (opening setup) transitions) }
{}
