//! What an audit finds of a text that `trace` wrote to its end. The function does nothing: it states a law.
#![tactic(auto)]

ghost use Rattle.std.specs.Prelude.{ℕ, List};
ghost use Rattle.pv_audit.specs.Findings.{IsVerdict, Verdict};
ghost use Rattle.pv_audit.specs.Traces.{IsTrace, Trace};
ghost use Rattle.pv_law_audits.specs.RightReports.{IsPassed};
ghost use Rattle.pv_run.specs.InputAnswers.{IsRunAnswer};
ghost use Rattle.pv_run.specs.declared.form.Form.TheVariants as form;
ghost use Rattle.pv_run.specs.declared.status.Status.TheVariants.{Done};

use pv_audit::one_trace;
use pv_law_requests::run_traces_pass;
use pv_law_traces::run_traces_are_read;

/// What `trace` answers where it is done is the text of a trace, and of that an audit finds that all agree, or that a limit is passed.
pub fn traces_of_runs_pass()
    ensures trace { (input text : List ℕ) → IsRunAnswer form.Trace input Done text → (trace : Trace) × IsTrace text trace }
    ensures passes { (input text : List ℕ) (trace : Trace) (verdict : Verdict) → IsRunAnswer form.Trace input Done text → IsTrace text trace →
        IsVerdict trace verdict → IsPassed verdict }
{
    one_trace();
    run_traces_are_read();
    run_traces_pass();
}
