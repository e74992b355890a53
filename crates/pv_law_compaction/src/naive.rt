// Ways to compact that look right and aren't.
ghost use Rattle.pv_base.specs.declared.limits.TheConstants.{HELD_NAMES};
ghost use Rattle.pv_law_compaction.specs.Naive.{in_doubt, in_order_of_numbers, one_after_another, settled, with_sure_values, without_commits, without_epoch, without_promises};
ghost use Rattle.pv_law_compaction.specs.StandsFor.{StandsFor};
ghost use Rattle.pv_law_step.specs.Examples.{bank};

/// What is kept doesn't stand for the records where the site forgets its commits, forgets who is prepared, keeps a value as if what isn't decided didn't commit, or forgets its epoch.
pub fn naive_ways_dont_stand()
    ensures commits { StandsFor HELD_NAMES bank.catalog 0 (without_commits bank.catalog 0 settled) settled → ⊥ }
    ensures promises { StandsFor HELD_NAMES bank.catalog 1 (without_promises bank.catalog 1 in_doubt) in_doubt → ⊥ }
    ensures values { StandsFor HELD_NAMES bank.catalog 1 (with_sure_values bank.catalog 1 in_doubt) in_doubt → ⊥ }
    ensures epoch { StandsFor HELD_NAMES bank.catalog 1 (without_epoch bank.catalog 1 in_doubt) in_doubt → ⊥ }
{}

/// Nor do the same promises in the order of their transactions' numbers.
pub fn order_counts()
    ensures { StandsFor HELD_NAMES bank.catalog 1 in_order_of_numbers one_after_another → ⊥ }
{}
