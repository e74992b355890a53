// Laws of the numbers of transactions and grants.
ghost use Rattle.std.specs.Prelude.{◌≢◌, ℕ};
ghost use Rattle.pv_base.specs.declared.grant.GrantId.{GrantId};
ghost use Rattle.pv_base.specs.declared.txn.TxnId.{TxnId};
ghost use Rattle.pv_law_acts.specs.Acts.{Acts};
ghost use Rattle.pv_law_acts.specs.Passed.{AreNumbersPassed, GivesGrant, GivesTxn};
ghost use Rattle.pv_law_acts.specs.Seen.{IsGrantPassed, IsPassed};
ghost use Rattle.pv_protocol.specs.State.{Setup};
ghost use Rattle.pv_protocol.specs.World.{opening, World};

/// Whatever acts a run is made of, each number that stands in a message, an entry, a grant, a record or the order is passed, and no
/// site gives a number that is.
pub fn numbers_in_use_are_passed()
    ensures in_use { (setup : Setup) (world : World) → Acts setup (opening setup) world → AreNumbersPassed world }
    ensures txns { (setup : Setup) (world after : World) (txn : TxnId) → GivesTxn setup world after txn → IsPassed world txn → ⊥ }
    ensures grants { (setup : Setup) (world after : World) (n : ℕ) (id : GrantId) → GivesGrant world n after id → IsGrantPassed world n id → ⊥ }
{}

/// No number is given twice, by no site and also across its restarts.
pub fn numbers_are_given_once()
    ensures txns { (setup : Setup) (world next later after : World) (txn other : TxnId) → GivesTxn setup world next txn → Acts setup next later →
        GivesTxn setup later after other → other ≢ txn }
    ensures grants { (setup : Setup) (world next later after : World) (n : ℕ) (id other : GrantId) → GivesGrant world n next id → Acts setup next later →
        GivesGrant later n after other → other ≢ id }
{}
