// What is true of the records in a decider's log. The function does nothing: it states a law.
ghost use Rattle.std.specs.Prelude.{◌≡◌, List};
ghost use Rattle.pv_disk_model.specs.Size.{Contents};
ghost use Rattle.pv_law_quorum.specs.Record.{Record};
ghost use Rattle.pv_quorum.specs.Spelling.{SpellRecords};

/// Contents are the records of one decider at most.
pub fn contents_tell_records()
    ensures { (entries others : List Record) (contents : Contents) → SpellRecords entries contents → SpellRecords others contents → entries ≡ others }
{}
