//! Laws of the texts of traces: what a run's trace says is the run. The functions do nothing: each states a law.
#![tactic(auto)]

ghost use Rattle.std.specs.Prelude.{◌≡◌, ℕ, None, Some, List, All};
ghost use Rattle.pv_law_traces.specs.Bare.{bare};
ghost use Rattle.pv_model.specs.LineCauses.{Before};
ghost use Rattle.pv_model.specs.LineForms.{scheduled};
ghost use Rattle.pv_audit.specs.Printed.{IsWithin};
ghost use Rattle.pv_audit.specs.Traces.{IsTrace};
ghost use Rattle.pv_model.specs.Events.{Event, Schedule};
ghost use Rattle.pv_model.specs.Schedule.{Declares, IsEvent, IsSchedule};
ghost use Rattle.pv_model.specs.Text.{TextLine};
ghost use Rattle.pv_law_traces.specs.Ranges.{HaveTakenFew, IsNumbered, IsPrintable, SendsFew, TakesFew};
ghost use Rattle.pv_format.specs.Range.{IsTxnWithin};
ghost use Rattle.pv_law_requests.specs.RunTraces.{run_trace};
ghost use Rattle.pv_law_world.specs.Ranges.{IsWorldInRange};
ghost use Rattle.pv_protocol.specs.Here.{Here};
ghost use Rattle.pv_protocol.specs.Report.{report_of, sent_lines, total_of};
ghost use Rattle.pv_protocol.specs.WellFormed.{IsWellFormed};
ghost use Rattle.pv_protocol.specs.World.{World, opening};
ghost use Rattle.pv_protocol.specs.WorldStep.{transition_of};
ghost use Rattle.pv_protocol.specs.Lines.{line_of};
ghost use Rattle.pv_protocol.specs.Run.{printed, run, worlds_of};
ghost use Rattle.pv_protocol.specs.Sound.{IsHereInRange, IsInputInRange, IsRunningInRange, IsSetupInRange};
ghost use Rattle.pv_protocol.specs.State.{Input, Placed, Setup};
ghost use Rattle.pv_protocol.specs.Step.{step_on};
ghost use Rattle.pv_run.specs.InputAnswers.{within_limit};
ghost use Rattle.pv_run.specs.Traced.{IsTraced, trace_of};
ghost use Rattle.pv_site.specs.SiteState.{setup_of};

use pv_audit::{printed_lines_are_entries, schedules_name_items_apart};
use pv_law_world::{
    runs_of_texts_stay_in_range, schedules_are_in_range, schedules_are_well_formed,
};
use pv_report::printed_lines_are_text;
use pv_run::traces_have_each_line;

/// A line of a schedule without the blanks at its ends is the event that the line is, or declares what the line does.
pub fn blanks_say_nothing()
    ensures event { (before : Before) (line : TextLine) (event : Event) → IsEvent before line event → IsEvent before (bare line) event }
    ensures declares { (before after : Before) (line : TextLine) → before.script ≡ scheduled → Declares before line after → Declares before (bare line) after }
{}

/// The text of the trace of a schedule's run is that trace, where each number that it prints is within the type that an audit reads it as.
pub fn traces_are_read()
    ensures { (input text : List ℕ) (schedule : Schedule) → IsSchedule input schedule → IsTraced (setup_of schedule.catalog) input text →
        All IsWithin (printed (setup_of schedule.catalog) schedule.events) →
        IsTrace text (run_trace (setup_of schedule.catalog) schedule.events) }
{
    printed_lines_are_text();
    printed_lines_are_entries();
    schedules_name_items_apart();
}

/// Each number in what a step reports is within the type that an audit reads it as.
pub fn notes_are_within()
    ensures { (sites : ℕ) (here : Here) (input : Input) → IsHereInRange sites here → HaveTakenFew here.running.entries → IsInputInRange sites here input →
        All (λ note. IsWithin (line_of here.me note)) (step_on here input).notes }
{}

/// In a world in range each number of a report, a total or a list of the messages is within the type that an audit reads it as, where the transactions of the
/// order are in range and the messages are fewer than what 64 bits count.
pub fn reports_are_within()
    ensures report { (setup : Setup) (world : World) → IsSetupInRange setup → IsWorldInRange setup world →
        All (λ placed. IsTxnWithin setup.catalog.sites placed.txn) world.order → All IsWithin (report_of setup world) }
    ensures total { (setup : Setup) (world : World) → IsSetupInRange setup → IsWorldInRange setup world → All IsWithin (total_of setup world) }
    ensures sent { (setup : Setup) (world : World) → IsSetupInRange setup → IsWorldInRange setup world → SendsFew world → All IsWithin (sent_lines world) }
{}

/// Each number in what an event prints in a world in range is within the type that an audit reads it as.
pub fn transitions_are_within()
    ensures { (setup : Setup) (world : World) (event : Event) → IsSetupInRange setup → IsWorldInRange setup world → IsPrintable setup world →
        IsWellFormed setup.catalog event → IsNumbered event → All IsWithin (transition_of setup world event).lines }
{}

/// Each number that the run of a schedule prints is within the type that an audit reads it as, where its messages pass no limit.
pub fn runs_print_within()
    ensures { (text : List ℕ) (schedule : Schedule) → IsSchedule text schedule → (within_limit schedule).over ≡ None →
        All IsWithin (printed (setup_of schedule.catalog) schedule.events) }
{
    runs_of_texts_stay_in_range();
    schedules_are_in_range();
    schedules_are_well_formed();
}

/// The text of the trace of a schedule's run is that trace, where the run's messages pass no limit: then that text is written to its end.
pub fn run_traces_are_read()
    ensures { (input : List ℕ) (schedule : Schedule) → IsSchedule input schedule → (within_limit schedule).over ≡ None →
        IsTrace (trace_of input schedule) (run_trace (setup_of schedule.catalog) schedule.events) }
{
    traces_have_each_line();
    runs_print_within();
    traces_are_read();
}

/// A transaction that reaches its lock point in a step is in range, where what the site has in memory is.
pub fn places_are_within()
    ensures { (sites : ℕ) (here : Here) (input : Input) (placed : Placed) → IsRunningInRange sites here.setup.catalog here.me here.running →
        (step_on here input).placed ≡ Some placed → IsTxnWithin sites placed.txn }
{}

/// Where every world of a run is in range, each transaction of their orders is.
pub fn orders_are_within()
    ensures { (setup : Setup) (events : List Event) → IsSetupInRange setup →
        All (IsWorldInRange setup) (worlds_of (opening setup) (run setup (opening setup) events)) →
        All (λ world. All (λ placed. IsTxnWithin setup.catalog.sites placed.txn) world.order) (worlds_of (opening setup) (run setup (opening setup) events)) }
{}

/// In each world of a run an entry has taken grants of no more sites than there may be.
pub fn entries_take_few()
    ensures { (setup : Setup) (events : List Event) → IsSetupInRange setup → All TakesFew (worlds_of (opening setup) (run setup (opening setup) events)) }
{}

/// In each world of a run whose messages pass no limit they are no more than 64 bits count.
pub fn limited_runs_send_few()
    ensures { (schedule : Schedule) → (within_limit schedule).over ≡ None → let setup = setup_of schedule.catalog in
        All SendsFew (worlds_of (opening setup) (run setup (opening setup) schedule.events)) }
{}
