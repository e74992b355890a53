// Laws of what came before each transition of a run.
ghost use Rattle.std.specs.Prelude.{All, List};
ghost use Rattle.pv_law_refusals.specs.Histories.{DenialsNameAnother, MessagesCameOf};
ghost use Rattle.pv_law_refusals.specs.Waits.{EntriesHaveAge};
ghost use Rattle.pv_model.specs.Events.{Event};
ghost use Rattle.pv_protocol.specs.Anywhere.{IsRunWithFaults};
ghost use Rattle.pv_protocol.specs.Places.{Place, world_before};
ghost use Rattle.pv_protocol.specs.Run.{run};
ghost use Rattle.pv_protocol.specs.State.{Setup};
ghost use Rattle.pv_protocol.specs.WellFormed.{IsWellFormed};
ghost use Rattle.pv_protocol.specs.World.{opening};
ghost use Rattle.pv_protocol.specs.WorldStep.{Transition};

/// Before each transition of a run, wherever sites stop: each denial that was sent came of the least conflict over the locks that were
/// asked for, and each no of a grant that was lost or of a journal without room, in an earlier transition.
pub fn denials_and_noes_have_reasons()
    ensures run { (setup : Setup) (events : List Event) → All (IsWellFormed setup.catalog) events → (place : Place (run setup (opening setup) events)) →
        MessagesCameOf setup (opening setup) place.earlier }
    ensures faults { (setup : Setup) (transitions : List Transition) → IsRunWithFaults setup (opening setup) transitions → (place : Place transitions) →
        MessagesCameOf setup (opening setup) place.earlier }
{}

/// No transaction is denied its locks for itself.
pub fn denials_name_another()
    ensures run { (setup : Setup) (events : List Event) → All (IsWellFormed setup.catalog) events → (place : Place (run setup (opening setup) events)) →
        DenialsNameAnother (world_before (opening setup) place) }
    ensures faults { (setup : Setup) (transitions : List Transition) → IsRunWithFaults setup (opening setup) transitions → (place : Place transitions) →
        DenialsNameAnother (world_before (opening setup) place) }
{}

/// Before each transition of a run, wherever sites stop: each entry has been in its stage for as many ticks of its site as it is old,
/// which are fewer than its last, and some participant hasn't answered.
pub fn entries_have_waited()
    ensures run { (setup : Setup) (events : List Event) → All (IsWellFormed setup.catalog) events → (place : Place (run setup (opening setup) events)) →
        EntriesHaveAge setup (opening setup) place.earlier }
    ensures faults { (setup : Setup) (transitions : List Transition) → IsRunWithFaults setup (opening setup) transitions → (place : Place transitions) →
        EntriesHaveAge setup (opening setup) place.earlier }
{}
