//! The law of majority decisions: deciders that may stop at any time, and whose messages may be lost or come late, fix one value
//! for a transaction. The functions do nothing: each states a law.
#![tactic(auto)]

ghost use Rattle.std.specs.Prelude.{◌≡◌, ◌⊎◌, ◌↔◌, ℕ, ◌<◌, Bool, true, false, List, [], ◌∷◌, ◌++◌, length, nat_lt};
ghost use Rattle.std.specs.List.{Contains};
ghost use Rattle.pv_base.specs.declared.txn.TxnId.{TxnId};
ghost use Rattle.pv_law_quorum.specs.Ballot.{Ballot, is_below};
ghost use Rattle.pv_law_quorum.specs.Decider.{Setup, decided};
ghost use Rattle.pv_law_quorum.specs.Undisturbed.{IsUndisturbed, IsSettled, unreported, next_ballot, after_all};
ghost use Rattle.pv_law_quorum.specs.World.{World, Event, Ending, whole, proposal, deliveries, IsChosen, IsFit, after, after_event, opening};

/// At most one value is ever chosen for a transaction: what is chosen after some events of a run is what is chosen after more of them.
/// And every line that says that a value is decided, in the whole run, names a value that is chosen.
pub fn one_value_is_chosen()
    ensures chosen { (setup : Setup) → IsFit setup → (events more : List Event) (txn : TxnId) (v u : Bool) →
        IsChosen setup (after setup (opening setup) events) txn v → IsChosen setup (after setup (opening setup) (events ++ more)) txn u → v ≡ u }
    ensures decided { (setup : Setup) → IsFit setup → (events : List Event) (n : ℕ) (txn : TxnId) (v : Bool) →
        Contains (after setup (opening setup) events).lines (decided n txn v) → IsChosen setup (after setup (opening setup) events) txn v }
{}

/// What is chosen for a transaction was proposed for it.
pub fn what_is_chosen_was_proposed()
    ensures { (setup : Setup) → IsFit setup → (events : List Event) (txn : TxnId) (v : Bool) → IsChosen setup (after setup (opening setup) events) txn v →
        (n : ℕ) × ((ending : Ending) × Contains events (proposal n txn v ending)) }
{}

/// A proposal that nothing disturbs comes to its end. After any events of a run a decider proposes a value, and then messages are
/// delivered in any order, also again, each of the proposal's at least once; the proposer and a majority are up, and no decider
/// promises a higher ballot of the transaction. Then the proposer reports that a value is decided, unless a log of that majority is full
/// or no ballot number is left. Lines of the events before don't count: they make no difference, and stand before those that come since.
pub fn an_undisturbed_proposal_is_settled()
    ensures settled { (setup : Setup) → IsFit setup → (events : List Event) (n : ℕ) (txn : TxnId) (v : Bool) (members : ℕ → Bool) (numbers : List ℕ) →
        let before = unreported (after setup (opening setup) events) in
        let begun = after_event setup before (proposal n txn v whole) in
        IsUndisturbed setup members n txn (next_ballot before n txn) begun numbers → IsSettled members (after_all setup begun numbers) n txn }
    ensures since { (setup : Setup) (world : World) (events : List Event) → let since = after setup (unreported world) events in
        after setup world events ≡ record since { lines = world.lines ++ since.lines } }
{}

/// For example, of three deciders: where 0 proposes in the beginning, and the eight messages that come of it are delivered in the
/// order in which they were sent, nothing disturbs the proposal.
pub fn a_first_proposal_is_undisturbed()
    ensures { let setup : Setup = record { deciders = 3; length = length; limit = 100 } in
        let txn : TxnId = record { site = record { 0 = 0 }; epoch = 1; number = 0 } in
        let before = unreported (opening setup) in
        IsUndisturbed setup (λ k. nat_lt k 3) 0 txn (next_ballot before 0 txn) (after_event setup before (proposal 0 txn true whole))
        (0 ∷ (1 ∷ (2 ∷ (3 ∷ (4 ∷ (5 ∷ (6 ∷ (7 ∷ [])))))))) }
{}

/// For example, of three deciders: when 0 has decided on yes, 1, which proposes no, decides on yes too. And where 0 has promises of a
/// majority when 2 proposes no, 2 decides on yes, since 0 had accepted it in its own ballot.
pub fn a_second_proposer_follows()
    ensures after_the_first { let setup : Setup = record { deciders = 3; length = length; limit = 100 } in
        let txn : TxnId = record { site = record { 0 = 0 }; epoch = 1; number = 0 } in
        let events = proposal 0 txn true whole ∷ deliveries 0 8 ++ (proposal 1 txn false whole ∷ deliveries 8 8) in
        (after setup (opening setup) events).lines ≡ decided 0 txn true ∷ (decided 1 txn true ∷ []) }
    ensures beside_the_first { let setup : Setup = record { deciders = 3; length = length; limit = 100 } in
        let txn : TxnId = record { site = record { 0 = 0 }; epoch = 1; number = 0 } in
        let events = proposal 0 txn true whole ∷ deliveries 0 2 ++ (proposal 2 txn false whole ∷ deliveries 2 12) in
        (after setup (opening setup) events).lines ≡ decided 2 txn true ∷ [] }
{}

/// Ballots whose deciders are bytes are ordered by number, then by decider, and two of which neither is below the other are one ballot.
pub fn ballots_are_ordered()
    ensures by_number { (ballot other : Ballot) → ballot.decider < 256 → other.decider < 256 →
        (is_below ballot other ≡ true) ↔ ((ballot.number < other.number) ⊎ ((ballot.number ≡ other.number) × (ballot.decider < other.decider))) }
    ensures total { (ballot other : Ballot) → ballot.decider < 256 → other.decider < 256 →
        is_below ballot other ≡ false → is_below other ballot ≡ false → ballot ≡ other }
{}
