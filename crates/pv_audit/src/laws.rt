// Laws of the texts of traces. The functions do nothing: each states a law.
ghost use Rattle.std.specs.Prelude.{◌≡◌, ℕ, List};
ghost use Rattle.pv_audit.specs.Entries.{entry_of};
ghost use Rattle.pv_audit.specs.Entries as entries;
ghost use Rattle.pv_audit.specs.Printed.{AreNamed};
ghost use Rattle.pv_audit.specs.Traces.{IsTrace, Trace};
ghost use Rattle.pv_audit.specs.Views.{IsNoTraceAt, RefusedEntry};
ghost use Rattle.pv_base.specs.Catalog.{Declared};
ghost use Rattle.pv_model.specs.Events.{Schedule};
ghost use Rattle.pv_model.specs.Schedule.{IsSchedule};
ghost use Rattle.pv_protocol.specs.LineText.{words_of};
ghost use Rattle.pv_protocol.specs.Lines.{Line};

/// A text is one trace at most.
pub fn one_trace()
    ensures { (text : List ℕ) (trace other : Trace) → IsTrace text trace → IsTrace text other → trace ≡ other }
{}

/// A trace has no line at fault.
pub fn no_fault_of_a_trace()
    ensures { (text : List ℕ) (trace : Trace) (refused : RefusedEntry) → IsTrace text trace → IsNoTraceAt text refused → ⊥ }
{}

/// What a line prints as is an entry that was printed: it doesn't begin with the prompt.
pub fn printed_lines_are_entries()
    ensures { (catalog : Declared) (line : Line) → entry_of (words_of catalog line) ≡ entries.printed (words_of catalog line) }
{}

/// Each item that a schedule declares has a name, and no other item has it.
pub fn schedules_name_items_apart()
    ensures { (text : List ℕ) (schedule : Schedule) → IsSchedule text schedule → AreNamed schedule.catalog }
{}
