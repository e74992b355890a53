//! Laws of the requests of runs, and of audits of their traces: each transaction of the order is that of a request, so an audit finds nothing but a limit. The
//! functions do nothing: each states a law.
#![tactic(auto)]

ghost use Rattle.std.specs.Prelude.{All, List};
ghost use Rattle.pv_audit.specs.Findings.{IsVerdict, Verdict};
ghost use Rattle.pv_law_audits.specs.RightReports.{IsPassed};
ghost use Rattle.pv_law_requests.specs.Requests.{OrdersAreOfRequests};
ghost use Rattle.pv_law_requests.specs.RunTraces.{run_trace};
ghost use Rattle.pv_model.specs.Events.{Event};
ghost use Rattle.pv_protocol.specs.Anywhere.{IsRunWithFaults};
ghost use Rattle.pv_protocol.specs.Run.{run};
ghost use Rattle.pv_protocol.specs.State.{Setup};
ghost use Rattle.pv_protocol.specs.WellFormed.{IsWellFormed};
ghost use Rattle.pv_protocol.specs.World.{opening};
ghost use Rattle.pv_protocol.specs.WorldStep.{Transition};

/// In each world of every run, wherever sites stop, each transaction of the order stands there once, and has the program of the first request before that
/// began it.
pub fn orders_are_of_requests()
    ensures run { (setup : Setup) (events : List Event) → All (IsWellFormed setup.catalog) events →
        OrdersAreOfRequests (opening setup) (run setup (opening setup) events) }
    ensures faults { (setup : Setup) (transitions : List Transition) → IsRunWithFaults setup (opening setup) transitions →
        OrdersAreOfRequests (opening setup) transitions }
{}

/// Of the trace of a run an audit finds that all agree, or that a limit is passed.
pub fn run_traces_pass()
    ensures { (setup : Setup) (events : List Event) (verdict : Verdict) → All (IsWellFormed setup.catalog) events → IsVerdict (run_trace setup events) verdict →
        IsPassed verdict }
{}
