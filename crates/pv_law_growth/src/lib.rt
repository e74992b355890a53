//! What stays the same where a catalog grows: by items behind the others, or by a higher limit of journals. The functions do nothing: each states a law.
#![tactic(auto)]

ghost use Rattle.std.specs.Prelude.{◌≡◌, ℕ, ◌<◌, List, length};
ghost use Rattle.pv_base.specs.Catalog.{Declared};
ghost use Rattle.pv_base.specs.declared.txn.TxnId.{TxnId};
ghost use Rattle.pv_format.specs.Record.{Record};
ghost use Rattle.pv_law_growth.specs.Growth.{HasGrown};
ghost use Rattle.pv_model.specs.Plan.{participants_of, wants_of};
ghost use Rattle.pv_model.specs.Syntax.{Program};
ghost use Rattle.pv_protocol.specs.Shown.{item_value, shown};
ghost use Rattle.pv_protocol.specs.WellFormed.{CanRun};

/// Of the items that a catalog had before it grew, the same records show the same cases, and the same value at each assignment.
pub fn grown_catalogs_show_the_same()
    ensures shown { (catalog later : Declared) (records : List Record) (item : ℕ) → HasGrown catalog later → item < length catalog.items →
        shown later records item ≡ shown catalog records item }
    ensures values { (catalog later : Declared) (records : List Record) (item : ℕ) (assignment : List TxnId) → HasGrown catalog later → item < length catalog.items →
        item_value later records item assignment ≡ item_value catalog records item assignment }
{}

/// A program that can run before a catalog grows can run afterwards, at the same participants, and wants the same of each.
pub fn programs_run_in_grown_catalogs()
    ensures run { (catalog later : Declared) (program : Program) → HasGrown catalog later → CanRun catalog program → CanRun later program }
    ensures participants { (catalog later : Declared) (program : Program) → HasGrown catalog later → CanRun catalog program →
        participants_of program later.items ≡ participants_of program catalog.items }
    ensures wants { (catalog later : Declared) (program : Program) (site : ℕ) → HasGrown catalog later → CanRun catalog program →
        wants_of program later.items site ≡ wants_of program catalog.items site }
{}
