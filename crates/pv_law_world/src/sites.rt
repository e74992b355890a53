// Laws of each site in every world of a run.
ghost use Rattle.std.specs.Prelude.{List, All};
ghost use Rattle.pv_law_world.specs.Sites.{AreEpochsRecorded, AreMemoriesInOrder};
ghost use Rattle.pv_model.specs.Events.{Event};
ghost use Rattle.pv_protocol.specs.Anywhere.{IsRunWithFaults};
ghost use Rattle.pv_protocol.specs.Run.{run, worlds_of};
ghost use Rattle.pv_protocol.specs.State.{Setup};
ghost use Rattle.pv_protocol.specs.World.{opening};
ghost use Rattle.pv_protocol.specs.WorldStep.{Transition};

/// A site that is up is in the greatest epoch that its records began, in every world of a run, wherever sites stop. Records only
/// grow and each start begins a greater epoch, so no number that a site gave before it stopped is given again.
pub fn epochs_are_recorded()
    ensures run { (setup : Setup) (events : List Event) → All AreEpochsRecorded (worlds_of (opening setup) (run setup (opening setup) events)) }
    ensures faults { (setup : Setup) (transitions : List Transition) → IsRunWithFaults setup (opening setup) transitions →
        All AreEpochsRecorded (worlds_of (opening setup) transitions) }
{}

/// What a site that is up has in memory stands in the order of transactions, in every world of a run, wherever sites stop.
pub fn memories_are_in_order()
    ensures run { (setup : Setup) (events : List Event) → All AreMemoriesInOrder (worlds_of (opening setup) (run setup (opening setup) events)) }
    ensures faults { (setup : Setup) (transitions : List Transition) → IsRunWithFaults setup (opening setup) transitions →
        All AreMemoriesInOrder (worlds_of (opening setup) transitions) }
{}
