// Laws of the order of a run's transactions.
ghost use Rattle.std.specs.Prelude.{All, List};
ghost use Rattle.pv_law_answers.specs.Orders.{CommittedFit, CommittedStandOnce};
ghost use Rattle.pv_model.specs.Events.{Event};
ghost use Rattle.pv_protocol.specs.Anywhere.{IsRunWithFaults};
ghost use Rattle.pv_protocol.specs.Run.{run, worlds_of};
ghost use Rattle.pv_protocol.specs.State.{Setup};
ghost use Rattle.pv_protocol.specs.WellFormed.{IsWellFormed};
ghost use Rattle.pv_protocol.specs.World.{opening};
ghost use Rattle.pv_protocol.specs.WorldStep.{Transition};

/// In every world of every run some assignment fits: that the committed transactions commit, and no other.
pub fn committed_fit()
    ensures run { (setup : Setup) (events : List Event) → All (IsWellFormed setup.catalog) events →
        All CommittedFit (worlds_of (opening setup) (run setup (opening setup) events)) }
    ensures faults { (setup : Setup) (transitions : List Transition) → IsRunWithFaults setup (opening setup) transitions →
        All CommittedFit (worlds_of (opening setup) transitions) }
{}

/// In every world of every run each committed transaction stands in the order, and once.
pub fn committed_stand_once()
    ensures run { (setup : Setup) (events : List Event) → All (IsWellFormed setup.catalog) events →
        All CommittedStandOnce (worlds_of (opening setup) (run setup (opening setup) events)) }
    ensures faults { (setup : Setup) (transitions : List Transition) → IsRunWithFaults setup (opening setup) transitions →
        All CommittedStandOnce (worlds_of (opening setup) transitions) }
{}
