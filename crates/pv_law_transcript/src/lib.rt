//! Laws on the text of a live run: a schedule that is written out reads back as its catalog and its events; and what a live script declares, and what the merge of
//! histories comes to, may be written so. The functions do nothing: each states a law.
#![tactic(auto)]

ghost use Rattle.std.specs.Prelude.{◌≡◌, ℕ, ◌<◌, List, All, length};
ghost use Rattle.pv_base.specs.Catalog.{Declared};
ghost use Rattle.pv_law_histories.specs.Fitting.{history_of};
ghost use Rattle.pv_law_histories.specs.History.{Stamped};
ghost use Rattle.pv_law_histories.specs.Merge.{Moment, IsMerge, events_of_merge};
ghost use Rattle.pv_law_passing.specs.Asking.{asked_by};
ghost use Rattle.pv_model.specs.Events.{Event, Schedule};
ghost use Rattle.pv_model.specs.LiveScript.{LiveScript};
ghost use Rattle.pv_model.specs.Schedule.{IsLiveScript, IsSchedule};
ghost use Rattle.pv_transcript.specs.ScheduleText.{schedule_text};
ghost use Rattle.pv_transcript.specs.Transcript.{with_reports};
ghost use Rattle.pv_law_transcript.specs.Merged.{HasWrittenNumber, IsWrittenIntake};
ghost use Rattle.pv_law_transcript.specs.Written.{AreWritten, IsWritten, IsWrittenRequest, IsWrittenWish};

/// A schedule that is written out, where its lines can be written, is a schedule of this catalog and these events, and so of no others (a text says one schedule:
/// pv_law_schedules).
pub fn written_schedule_reads_back()
    ensures { (schedule : Schedule) → IsWritten schedule.catalog → AreWritten schedule.catalog schedule.events → IsSchedule (schedule_text schedule.catalog schedule.events) schedule }
{}

/// The catalog of a live script can be written as the first lines of a schedule, and each request of its clients as a line.
pub fn live_scripts_can_be_written()
    ensures catalog { (text : List ℕ) (script : LiveScript) → IsLiveScript text script → IsWritten script.catalog }
    ensures requests { (text : List ℕ) (script : LiveScript) → IsLiveScript text script →
        All (λ client. All (IsWrittenWish script.catalog) client.requests) script.clients }
{}

/// If all requests of each client that stand in a history can be written as lines of a schedule, so can all entries of the history that are requests.
pub fn standing_requests_can_be_written()
    ensures { (catalog : Declared) (history : List Stamped) → ((client : ℕ) → All (λ asked. IsWrittenRequest catalog asked.query asked.text asked.program) (asked_by client history)) →
        All (λ entry. IsWrittenIntake catalog entry.intake) history }
{}

/// Each event of the merge of histories, and the reports behind them, can be written as a line of a schedule, if the requests can, and if the numbers of messages are
/// below 2^64.
pub fn merged_events_can_be_written()
    ensures { (catalog : Declared) (histories : List (List Stamped)) (moments : List Moment) → length histories ≡ catalog.sites → IsMerge histories moments →
        ((n : ℕ) → n < length histories → All (λ entry. IsWrittenIntake catalog entry.intake) (history_of histories n)) →
        All HasWrittenNumber (events_of_merge moments) → AreWritten catalog (with_reports (events_of_merge moments)) }
{}
