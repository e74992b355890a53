// What stands for a list still does, whatever a site appends, learns again and compacts.
ghost use Rattle.std.specs.Prelude.{◌≡◌, ◌++◌, ◌∷◌, [], ℕ, Bool, List, Some};
ghost use Rattle.pv_base.specs.Catalog.{Declared};
ghost use Rattle.pv_base.specs.declared.txn.TxnId.{TxnId};
ghost use Rattle.pv_format.specs.Record.{Record, outcome_known};
ghost use Rattle.pv_law_compaction.specs.Given.{AreConsistent, DependOnGiven, is_given};
ghost use Rattle.pv_law_compaction.specs.Kept.{IsNew, MayKeep};
ghost use Rattle.pv_law_compaction.specs.StandsFor.{StandsFor};
ghost use Rattle.pv_law_values.specs.Fixed.{IsRecordFixedBy};
ghost use Rattle.pv_protocol.specs.Records.{known};
ghost use Rattle.pv_protocol.specs.Width.{IsNarrow};

/// Records of which none contradicts an earlier one stand for themselves.
pub fn records_stand_for_themselves()
    ensures { (limit : ℕ) (catalog : Declared) (site : ℕ) (records : List Record) → IsNarrow limit catalog site records →
        DependOnGiven catalog site records → AreConsistent records → StandsFor limit catalog site records records }
{}

/// What stands for records that stand for others stands for those.
pub fn standing_for_is_transitive()
    ensures { (limit : ℕ) (catalog : Declared) (site : ℕ) (kept middle all : List Record) → StandsFor limit catalog site kept middle →
        StandsFor limit catalog site middle all → StandsFor limit catalog site kept all }
{}

/// Where a record is appended to both lists, the one still stands for the other. If it promises, it does so for a transaction whose number was
/// given, with values that depend on such ones alone, and is narrow; if it tells an outcome, that wasn't known.
pub fn appended_records_are_stood_for()
    ensures { (limit : ℕ) (catalog : Declared) (site : ℕ) (kept all : List Record) (more : Record) → StandsFor limit catalog site kept all →
        IsRecordFixedBy is_given more → IsNew all more → IsNarrow limit catalog site (kept ++ more ∷ []) →
        StandsFor limit catalog site (kept ++ more ∷ []) (all ++ more ∷ []) }
{}

/// And where an outcome that was known is learned again, since it was forgotten.
pub fn forgotten_outcomes_may_come_again()
    ensures { (limit : ℕ) (catalog : Declared) (site : ℕ) (kept all : List Record) (txn : TxnId) (commits : Bool) → StandsFor limit catalog site kept all →
        known all txn ≡ Some commits → StandsFor limit catalog site (kept ++ outcome_known txn commits ∷ []) all }
{}

/// Whatever a site appends, learns again and compacts, as often as it likes, what it keeps stands for all that it ever appended.
pub fn what_is_kept_stands_for_all()
    ensures { (limit : ℕ) (catalog : Declared) (site : ℕ) (kept all : List Record) → MayKeep limit catalog site kept all →
        StandsFor limit catalog site kept all }
{}
