//! Laws on audits of what runs print: where each transaction of a world's order is that of a request, its report is right, and of right reports
//! nothing is found but a limit. The functions do nothing: each states a law.
#![tactic(auto)]

ghost use Rattle.std.specs.Prelude.{List};
ghost use Rattle.pv_audit.specs.Findings.{IsVerdict, Verdict};
ghost use Rattle.pv_audit.specs.Traces.{Trace};
ghost use Rattle.pv_law_answers.specs.Orders.{CommittedFit};
ghost use Rattle.pv_law_audits.specs.RightReports.{AreRight, IsOfRequests, IsPassed, IsRight, ShowSerialValues, told_in};
ghost use Rattle.pv_model.specs.Serial.{Ordered};
ghost use Rattle.pv_protocol.specs.Lines.{Line};
ghost use Rattle.pv_protocol.specs.State.{Setup};
ghost use Rattle.pv_protocol.specs.World.{World};

/// Of a trace whose reports are right an audit finds that all agree, or that a limit is passed.
pub fn right_traces_pass()
    ensures { (trace : Trace) (verdict : Verdict) → AreRight trace → IsVerdict trace verdict → IsPassed verdict }
{}

/// What a report prints in a world is right: where each transaction of the order stands there once, with the program of the first request that began it, and
/// the printed items have serial values.
pub fn reports_of_worlds_are_right()
    ensures { (setup : Setup) (world : World) (begun : List Ordered) (items : List Line) → IsOfRequests begun world.order → CommittedFit world →
        ShowSerialValues setup world items → IsRight setup.catalog (told_in world begun items) }
{}
