// What known outcomes make of an assignment, and what is left of it when it is cut.
ghost use Rattle.std.specs.Prelude.{◌≡◌, ◌&&◌, ◌++◌, Bool, List};
ghost use Rattle.pv_base.specs.Assignment.{AgreeOn, commits};
ghost use Rattle.pv_base.specs.declared.txn.TxnId.{TxnId};
ghost use Rattle.pv_format.specs.Record.{Record};
ghost use Rattle.pv_law_values.specs.Cut.{among};
ghost use Rattle.pv_law_values.specs.Heeds.{Heeds};
ghost use Rattle.pv_protocol.specs.Records.{choice};

/// Where an assignment heeds the records, what they know changes none of its outcomes.
pub fn heeding_changes_nothing()
    ensures { (records : List Record) (assignment : List TxnId) → Heeds records assignment →
        (txn : TxnId) → commits (choice records assignment) txn ≡ commits assignment txn }
{}

/// An assignment that heeds records heeds each front of them.
pub fn fronts_are_heeded()
    ensures { (records more : List Record) (assignment : List TxnId) → Heeds (records ++ more) assignment → Heeds records assignment }
{}

/// Assignments that agree on some transactions agree on them with the known outcomes put in.
pub fn known_outcomes_part_nothing()
    ensures { (records : List Record) (set : TxnId → Bool) (assignment other : List TxnId) → AgreeOn set assignment other →
        AgreeOn set (choice records assignment) (choice records other) }
{}

/// In an assignment that is cut to some transactions those of them commit that committed, and no others.
pub fn cut_is_of_the_list()
    ensures { (txns assignment : List TxnId) (txn : TxnId) → commits (among txns assignment) txn ≡ (commits txns txn && commits assignment txn) }
{}
