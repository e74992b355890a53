// That a transaction commits when nothing comes between.
ghost use Rattle.std.specs.Prelude.{ℕ, ◌<◌, All, List};
ghost use Rattle.pv_law_complete.specs.Undisturbed.{UndisturbedCommit};
ghost use Rattle.pv_law_world.specs.Ranges.{with_limits};
ghost use Rattle.pv_model.specs.Events.{Event, Schedule};
ghost use Rattle.pv_model.specs.Schedule.{IsSchedule};
ghost use Rattle.pv_protocol.specs.Anywhere.{IsRunWithFaults};
ghost use Rattle.pv_protocol.specs.Run.{run};
ghost use Rattle.pv_protocol.specs.State.{Setup};
ghost use Rattle.pv_protocol.specs.WellFormed.{IsWellFormed};
ghost use Rattle.pv_protocol.specs.World.{opening};
ghost use Rattle.pv_protocol.specs.WorldStep.{Transition};

/// Where more outcomes may be named in a value than in what is read, a transaction that is submitted commits if nothing comes between, and
/// is committed from then on. Nothing comes between where, until it commits, its site and its participants stay up and don't tick, each
/// message of it that is sent is delivered, no lock that it asks for is in conflict, what was taken for it names few outcomes enough and
/// is certain where its program requires that, no number is spent and no journal is at its limit.
pub fn undisturbed_transactions_commit()
    ensures run { (setup : Setup) → setup.read_names < setup.held_names → (events : List Event) → All (IsWellFormed setup.catalog) events →
        UndisturbedCommit setup (opening setup) (run setup (opening setup) events) }
    ensures faults { (setup : Setup) → setup.read_names < setup.held_names → (transitions : List Transition) → IsRunWithFaults setup (opening setup) transitions →
        UndisturbedCommit setup (opening setup) transitions }
{}

/// So it is in the run of every schedule's text.
pub fn undisturbed_transactions_of_texts_commit()
    ensures { (text : List ℕ) (schedule : Schedule) (read_names held_names : ℕ) → read_names < held_names → IsSchedule text schedule →
        let setup = with_limits schedule.catalog read_names held_names in UndisturbedCommit setup (opening setup) (run setup (opening setup) schedule.events) }
{}
