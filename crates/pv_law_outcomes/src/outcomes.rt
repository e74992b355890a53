// Laws of outcomes in every world that acts lead to.
ghost use Rattle.std.specs.Prelude.{◌≡◌, ◌⊎◌, ℕ, Bool, false, IsTrue, List, true};
ghost use Rattle.pv_base.specs.Assignment.{commits};
ghost use Rattle.pv_base.specs.declared.txn.TxnId.{TxnId};
ghost use Rattle.pv_law_acts.specs.Acts.{Acts};
ghost use Rattle.pv_law_acts.specs.Seen.{IsDead};
ghost use Rattle.pv_law_outcomes.specs.Decided.{AreDecided, is_placed, IsCutTo};
ghost use Rattle.pv_protocol.specs.Committed.{Fits, is_committed, IsOpen};
ghost use Rattle.pv_protocol.specs.Outcomes.{IsOut, Knows};
ghost use Rattle.pv_protocol.specs.State.{Setup};
ghost use Rattle.pv_protocol.specs.World.{opening, World};

/// Whatever acts lead to a world, a committed transaction is in the order and prepared at each participant, and that a transaction
/// commits is reported and recorded of a committed one alone, that it doesn't of a dead one.
pub fn outcomes_are_decided()
    ensures { (setup : Setup) (world : World) → Acts setup (opening setup) world → AreDecided world }
{}

/// No two sites know different outcomes. One that is known to commit is committed. One that is known not to is dead, which is neither
/// committed nor open, then and ever after.
pub fn no_two_outcomes()
    ensures one { (setup : Setup) (world : World) → Acts setup (opening setup) world → (n other : ℕ) (txn : TxnId) (outcome reported : Bool) →
        Knows world n txn outcome → Knows world other txn reported → outcome ≡ reported }
    ensures commit { (setup : Setup) (world : World) → Acts setup (opening setup) world → (n : ℕ) (txn : TxnId) → Knows world n txn true →
        IsTrue (is_committed world txn) }
    ensures abort { (setup : Setup) (world : World) → Acts setup (opening setup) world → (n : ℕ) (txn : TxnId) → Knows world n txn false →
        IsDead world txn }
    ensures out { (setup : Setup) (world later : World) → Acts setup (opening setup) world → Acts setup world later → (n : ℕ) (txn : TxnId) →
        Knows world n txn false → IsOut txn later }
{}

/// What is committed stays so. What is dead stays so, and is neither committed nor open.
pub fn outcomes_are_for_ever()
    ensures commit { (setup : Setup) (world later : World) (txn : TxnId) → Acts setup world later → IsTrue (is_committed world txn) →
        IsTrue (is_committed later txn) }
    ensures dead { (setup : Setup) (world later : World) (txn : TxnId) → Acts setup (opening setup) world → Acts setup world later →
        IsDead world txn → IsDead later txn }
    ensures out { (setup : Setup) (world : World) (txn : TxnId) → Acts setup (opening setup) world → IsDead world txn → IsOut txn world }
{}

/// A transaction of the order that is committed or open later was so before: none comes back that couldn't commit any more. So what
/// fits a later world, cut to an earlier world's order, fits the earlier one.
pub fn what_is_open_was_open()
    ensures txn { (setup : Setup) (world later : World) (txn : TxnId) → Acts setup (opening setup) world → Acts setup world later →
        is_placed world txn ≡ true → IsTrue (is_committed later txn) ⊎ IsOpen later txn → IsTrue (is_committed world txn) ⊎ IsOpen world txn }
    ensures fits { (setup : Setup) (world later : World) (whole part : List TxnId) → Acts setup (opening setup) world → Acts setup world later →
        Fits later whole → IsCutTo world whole part → Fits world part }
{}

/// An assignment that fits a world has every outcome that one of its sites knows.
pub fn what_fits_is_known()
    ensures { (setup : Setup) (world : World) (assignment : List TxnId) → Acts setup (opening setup) world → Fits world assignment →
        (n : ℕ) (txn : TxnId) (outcome : Bool) → Knows world n txn outcome → commits assignment txn ≡ outcome }
{}
