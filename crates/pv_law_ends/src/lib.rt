//! Laws of how transactions end in every run of many sites, wherever they stop: of each one line at most tells it, at the transaction's own site. The functions do
//! nothing: each states a law.
#![tactic(auto)]

ghost use Rattle.std.specs.Prelude.{All, List};
ghost use Rattle.pv_law_ends.specs.Ends.{TxnsEndAtHome, TxnsEndOnce};
ghost use Rattle.pv_model.specs.Events.{Event};
ghost use Rattle.pv_protocol.specs.Anywhere.{IsRunWithFaults};
ghost use Rattle.pv_protocol.specs.Run.{run};
ghost use Rattle.pv_protocol.specs.State.{Setup};
ghost use Rattle.pv_protocol.specs.WellFormed.{IsWellFormed};
ghost use Rattle.pv_protocol.specs.World.{opening};
ghost use Rattle.pv_protocol.specs.WorldStep.{Transition};

/// No transaction ends twice: whatever sites stop and restart, no two lines of a run tell of one transaction that it has committed or is refused. So there is at most one such
/// line of each.
pub fn no_txn_ends_twice()
    ensures run { (setup : Setup) (events : List Event) → All (IsWellFormed setup.catalog) events → TxnsEndOnce (run setup (opening setup) events) }
    ensures faults { (setup : Setup) (transitions : List Transition) → IsRunWithFaults setup (opening setup) transitions → TxnsEndOnce transitions }
{}

/// What tells that a transaction has committed or is refused is printed in a step of the transaction's own site.
pub fn txns_end_at_home()
    ensures run { (setup : Setup) (events : List Event) → All (IsWellFormed setup.catalog) events → TxnsEndAtHome (opening setup) (run setup (opening setup) events) }
    ensures faults { (setup : Setup) (transitions : List Transition) → IsRunWithFaults setup (opening setup) transitions → TxnsEndAtHome (opening setup) transitions }
{}
