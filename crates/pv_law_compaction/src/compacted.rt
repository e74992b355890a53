// What records are compacted to stands for them, and is in range.
ghost use Rattle.std.specs.Prelude.{ℕ, ◌<◌, ◌≤◌, All, List};
ghost use Rattle.pv_base.specs.Catalog.{Declared};
ghost use Rattle.pv_format.specs.Contents.{greatest_epoch};
ghost use Rattle.pv_format.specs.Range.{IsRecordWithin};
ghost use Rattle.pv_format.specs.Record.{Record};
ghost use Rattle.pv_law_compaction.specs.Compact.{compact};
ghost use Rattle.pv_law_compaction.specs.Given.{DependOnGiven};
ghost use Rattle.pv_law_compaction.specs.StandsFor.{StandsFor};
ghost use Rattle.pv_protocol.specs.Sound.{IsSetupInRange};
ghost use Rattle.pv_protocol.specs.State.{Setup};
ghost use Rattle.pv_protocol.specs.Width.{IsNarrow};

/// What records are compacted to stands for them, where their values are narrow and depend on transactions alone whose numbers were given.
pub fn compacted_records_stand()
    ensures { (limit : ℕ) (catalog : Declared) (site : ℕ) (records : List Record) → IsNarrow limit catalog site records →
        DependOnGiven catalog site records → StandsFor limit catalog site (compact catalog site records) records }
{}

/// And each of them is in range, so that it has a spelling, where the records are: no write has too many items.
pub fn compacted_records_are_in_range()
    ensures { (setup : Setup) (sites site : ℕ) (records : List Record) → IsSetupInRange setup → site < sites →
        IsNarrow setup.held_names setup.catalog site records → All (IsRecordWithin sites) records → 1 ≤ greatest_epoch records →
        All (IsRecordWithin sites) (compact setup.catalog site records) }
{}
