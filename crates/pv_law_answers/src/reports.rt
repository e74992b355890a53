// Laws of what a report prints.
ghost use Rattle.std.specs.Prelude.{All, List};
ghost use Rattle.pv_law_answers.specs.Reported.{ReportsShowEachReadable, ReportsShowSerialValues};
ghost use Rattle.pv_model.specs.Events.{Event};
ghost use Rattle.pv_protocol.specs.Anywhere.{IsRunWithFaults};
ghost use Rattle.pv_protocol.specs.Run.{run};
ghost use Rattle.pv_protocol.specs.State.{Setup};
ghost use Rattle.pv_protocol.specs.WellFormed.{IsWellFormed};
ghost use Rattle.pv_protocol.specs.World.{opening};
ghost use Rattle.pv_protocol.specs.WorldStep.{Transition};

/// The cases that a report prints of an item are, at each assignment that fits its world, the value that the serial run leaves it.
pub fn reports_show_serial_values()
    ensures run { (setup : Setup) (events : List Event) → All (IsWellFormed setup.catalog) events →
        ReportsShowSerialValues setup (run setup (opening setup) events) }
    ensures faults { (setup : Setup) (transitions : List Transition) → IsRunWithFaults setup (opening setup) transitions →
        ReportsShowSerialValues setup transitions }
{}

/// And it prints each item that can be read in its world, with the cases of its shown value.
pub fn reports_show_each_readable()
    ensures run { (setup : Setup) (events : List Event) → All (IsWellFormed setup.catalog) events →
        ReportsShowEachReadable setup (run setup (opening setup) events) }
    ensures faults { (setup : Setup) (transitions : List Transition) → IsRunWithFaults setup (opening setup) transitions →
        ReportsShowEachReadable setup transitions }
{}
