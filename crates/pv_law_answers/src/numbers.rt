// Laws of the numbers that a run gives.
ghost use Rattle.std.specs.Prelude.{All, List};
ghost use Rattle.pv_law_answers.specs.Numbers.{GrantsAreNew, TxnsAreNew};
ghost use Rattle.pv_model.specs.Events.{Event};
ghost use Rattle.pv_protocol.specs.Anywhere.{IsRunWithFaults};
ghost use Rattle.pv_protocol.specs.Run.{run, worlds_of};
ghost use Rattle.pv_protocol.specs.State.{Setup};
ghost use Rattle.pv_protocol.specs.WellFormed.{IsWellFormed};
ghost use Rattle.pv_protocol.specs.World.{opening};
ghost use Rattle.pv_protocol.specs.WorldStep.{Transition};

/// No number is given to two transactions: whatever sites stop and restart, no two transitions of a run print the same one.
pub fn no_txn_is_begun_twice()
    ensures run { (setup : Setup) (events : List Event) → All (IsWellFormed setup.catalog) events →
        TxnsAreNew (run setup (opening setup) events) }
    ensures faults { (setup : Setup) (transitions : List Transition) → IsRunWithFaults setup (opening setup) transitions →
        TxnsAreNew transitions }
{}

/// No number is given to two grants of a site: what stands there under one number is one grant, and once it has gone none stands there under
/// its number again.
pub fn no_grant_comes_back()
    ensures run { (setup : Setup) (events : List Event) → All (IsWellFormed setup.catalog) events →
        GrantsAreNew (worlds_of (opening setup) (run setup (opening setup) events)) }
    ensures faults { (setup : Setup) (transitions : List Transition) → IsRunWithFaults setup (opening setup) transitions →
        GrantsAreNew (worlds_of (opening setup) transitions) }
{}
