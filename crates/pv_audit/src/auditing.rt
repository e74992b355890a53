// The audit of a trace.
ghost use Rattle.std.specs.Prelude.{◌≡◌, ◌≤◌, ◌<◌, ◌^◌, ◌+◌, ◌∷◌, [], ℕ, None, List, length, map, All, MatchOption, IfOk};
ghost use Rattle.pv_audit.specs.Agreement.{ReportAgrees};
ghost use Rattle.pv_audit.specs.Differences.{HasPolyvalue, IsAstray, IsItemOf, LineIsFine};
ghost use Rattle.pv_audit.specs.Findings as model;
ghost use Rattle.pv_audit.specs.Findings.{IsFine, IsFinding, IsFirstDisagreement, IsVerdict};
ghost use Rattle.pv_audit.specs.Kept.{KeepsFirst, KeepsPlans};
ghost use Rattle.pv_audit.specs.Reports.{Report, misplaced, order_of, report_in, reports};
ghost use Rattle.pv_audit.specs.ToldView.{AreOutcomesIn, report_of};
ghost use Rattle.pv_audit.specs.Traces.{IsTrace};
ghost use Rattle.pv_audit.specs.Values.{AreAllValuesAfter};
ghost use Rattle.pv_audit.specs.VerdictView.{verdict_of};
ghost use Rattle.pv_audit.specs.Views.{part_of, trace_of};
ghost use Rattle.pv_base.specs.Catalog.{Declared};
ghost use Rattle.pv_base.specs.declared.txn.TxnId as code;
ghost use Rattle.pv_model.specs.Serial.{Ordered};
ghost use Rattle.pv_script.specs.LineView.{line_of};
ghost use Rattle.pv_script.specs.ScheduleView.{HasPlan};
ghost use Rattle.pv_script.specs.declared.lines.TheConstants.{MAX_SCHEDULE};

use crate::begun::Begun;
use crate::difference::first_list;
use crate::outcomes::Outcomes;
use crate::report::Head;
use crate::told::told_by;
use crate::trace::{Trace, TracePart};
use crate::values::{RunError, values_told};
use crate::verdict::Verdict;
use pv_base::{Catalog, NoMemory};
use pv_script::Line;
use pv_tree::Poly;
use std::alloc::Global;

/// Whether each report of a trace agrees with the serial run of its order, or the first one that doesn't, and where. Nothing is trusted of what ran the
/// schedule: the reports are compared with the programs of the requests that began the transactions, run one after another.
///
/// Takes time in proportion to the trace, times the alternatives of the widest report, times the logarithm of the number of transactions.
pub fn audit(alloc: Global, trace: &Trace) -> Result<Verdict, NoMemory>
    // Some text of at most `MAX_SCHEDULE` bytes is this trace.
    requires read { (text : List ℕ) × (length text ≤ MAX_SCHEDULE) × IsTrace text (trace_of trace.now) }
    requires plans { All (λ part. HasPlan trace.now.catalog part.event) trace.now.parts.items }

    // The verdict is yes, with the number of reports, exactly where each of them has its transactions in place, stays within the limits, and agrees: for each
    // assignment by which the committed transactions commit and some of the open ones, each printed item has the value that the serial run leaves it.
    ensures agrees { IfOk result (λ verdict. (count : ℕ) → verdict_of verdict ≡ model.all_agree count →
        (count ≡ length (reports (trace_of trace.now))) × All (IsFine trace.now.catalog) (reports (trace_of trace.now))) }
    ensures says_so { IfOk result (λ verdict. All (IsFine trace.now.catalog) (reports (trace_of trace.now)) →
        verdict_of verdict ≡ model.all_agree (length (reports (trace_of trace.now)))) }

    // Else it is the first finding, and there is only one.
    ensures verdict { IfOk result (λ verdict. IsVerdict (trace_of trace.now) (verdict_of verdict)) }
    ensures only { IfOk result (λ verdict. (other : model.Verdict) → IsVerdict (trace_of trace.now) other → verdict_of verdict ≡ other) }
{
    let mut begun = Begun::new(alloc);
    let mut reports = 0;
    for part in &trace.parts {
        if let Some(verdict) = audit_part(alloc, &trace.catalog, &begun, part, &mut reports)? {
            return Ok(verdict);
        }
        begun.take(part)?;
    }
    Ok(Verdict::Yes(reports))
}

// What is wrong with the part, if it is a report and anything is. A report is counted.
fn audit_part(
    alloc: Global,
    catalog: &Catalog,
    begun: &Begun,
    part: &TracePart,
    reports: &mut u32,
) -> Result<Option<Verdict>, NoMemory>
    requires plans { KeepsPlans (length catalog.now.items) begun.now }
    requires items { All (IsItemOf (length catalog.now.items)) (part_of part.now).lines }
    requires polyvalues { All HasPolyvalue (part_of part.now).lines }
    requires few { reports.old + 1 < 2 ^ 32 }
    ensures { (requests : List Ordered) → KeepsFirst begun.now requests →
        let told = report_in requests (part_of part.now).event (part_of part.now).lines in
        IfOk result (λ found. MatchOption found
        ((reports.new ≡ reports.old + length told) × All (IsFine catalog.now) told)
        (λ verdict. (report : Report) × (finding : model.Finding) × (told ≡ report ∷ []) × (verdict_of verdict ≡ model.at_report (reports.old + 1) finding) × IsFinding catalog.now report finding)) }
{
    let Some(head) = told_by(part) else {
        return Ok(None);
    };
    *reports += 1;
    audit_one(alloc, catalog, begun, head, *reports)
}

// What is wrong with the report of this number, if anything is.
fn audit_one(
    alloc: Global,
    catalog: &Catalog,
    begun: &Begun,
    head: Head,
    report: u32,
) -> Result<Option<Verdict>, NoMemory>
    requires plans { KeepsPlans (length catalog.now.items) begun.now }
    requires items { All (IsItemOf (length catalog.now.items)) (map line_of head.items.now) }
    requires polyvalues { All HasPolyvalue (map line_of head.items.now) }
    ensures { (requests : List Ordered) → KeepsFirst begun.now requests →
        IfOk result (λ found. MatchOption found (IsFine catalog.now (report_of requests head.entry))
        (λ verdict. (finding : model.Finding) × (verdict_of verdict ≡ model.at_report report finding) × IsFinding catalog.now (report_of requests head.entry) finding)) }
{
    let outcomes = Outcomes::of(alloc, head)?;
    if let Some(txn) = outcomes.misplaced(head, begun) {
        return Ok(Some(Verdict::NoOrder { report, txn }));
    }
    match values_told(alloc, catalog, begun, head.ordered, &outcomes) {
        Ok(values) => compare_items(alloc, head.items, &values, &outcomes, report),
        Err(RunError::Limit(names)) => Ok(Some(Verdict::Limit { report, names })),
        Err(RunError::NoMemory) => Err(NoMemory),
    }
}

// The first printed item that has another value than the serial run leaves it.
fn compare_items(
    alloc: Global,
    lines: &[Line],
    values: &[Poly<i64>],
    outcomes: &Outcomes,
    report: u32,
) -> Result<Option<Verdict>, NoMemory>
    requires { All HasPolyvalue (map line_of lines.now) }
    ensures { (catalog : Declared) (told : Report) → AreOutcomesIn outcomes.now told → misplaced told ≡ None →
        AreAllValuesAfter catalog told (order_of told) values.now → All (IsItemOf (length catalog.items)) told.items → map line_of lines.now ≡ told.items →
        IfOk result (λ found. MatchOption found (ReportAgrees catalog told)
        (λ verdict. (item : ℕ) × (txns : List code.TxnId) × (verdict_of verdict ≡ model.at_report report (model.no_item item txns)) × IsFirstDisagreement catalog told item txns)) }
{
    for line in lines {
        if let Some(verdict) = compare_item(alloc, line, values, outcomes, report)? {
            return Ok(Some(verdict));
        }
    }
    Ok(None)
}

// The same of one line.
fn compare_item(
    alloc: Global,
    line: &Line,
    values: &[Poly<i64>],
    outcomes: &Outcomes,
    report: u32,
) -> Result<Option<Verdict>, NoMemory>
    requires { HasPolyvalue (line_of line.now) }
    ensures { (catalog : Declared) (told : Report) → AreOutcomesIn outcomes.now told → misplaced told ≡ None →
        AreAllValuesAfter catalog told (order_of told) values.now → IsItemOf (length catalog.items) (line_of line.now) →
        IfOk result (λ found. MatchOption found (LineIsFine catalog told (line_of line.now))
        (λ verdict. (item : ℕ) × (txns : List code.TxnId) × (verdict_of verdict ≡ model.at_report report (model.no_item item txns)) × IsAstray catalog told (line_of line.now) item txns)) }
{
    let Line::Item { item, cases } = line else {
        return Ok(None);
    };
    let Some(value) = values.get(item.0 as usize) else {
        return Ok(None);
    };
    match first_list(alloc, cases, value, outcomes)? {
        Some(txns) => Ok(Some(Verdict::NoItem {
            report,
            item: *item,
            yes: txns,
        })),
        None => Ok(None),
    }
}
