// What records are compacted to, worked out.
ghost use Rattle.std.specs.Prelude.{◌≡◌};
ghost use Rattle.pv_law_compaction.specs.Compact.{compact};
ghost use Rattle.pv_law_compaction.specs.Examples.{kept, written};
ghost use Rattle.pv_law_step.specs.Examples.{bank};

/// Of seven records five are left: the epoch, the site's own commit, the value with what it depends on, and the promise of the transaction in doubt.
pub fn it_is_worked_out()
    ensures { compact bank.catalog 1 written ≡ kept }
{}
