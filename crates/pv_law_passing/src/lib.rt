//! What rings bring from site to site: histories of sites between which rings stand fit together, what a site has of another's messages stands in its history in the order in
//! which it was posted, and a client's requests stand there each once and in order. The functions do nothing: each states a law.
#![tactic(auto)]

ghost use Rattle.std.specs.Prelude.{◌≡◌, ℕ, ◌<◌, List, [], ◌∷◌, ◌++◌};
ghost use Rattle.std.specs.List.{AllZip};
ghost use mathlib.Core.List.{IsPrefix, Sublist};
ghost use Rattle.pv_law_histories.specs.Fitting.{FitTogether};
ghost use Rattle.pv_law_histories.specs.History.{Intake, request, Stamped};
ghost use Rattle.pv_law_histories.specs.Posting.{Parcel, PassMessages};
ghost use Rattle.pv_law_passing.specs.Asking.{AsksInOrder, asked_by, with_asked};
ghost use Rattle.pv_law_passing.specs.Coming.{ComesInOrder, SealsAlike, counted, parcels_from};
ghost use Rattle.pv_law_passing.specs.Rings.{Brings, GoByRings, Ring, Sealed, WasTaken};
ghost use Rattle.pv_law_passing.specs.Traffic.{GivesMore, GoTogether, GoesByItsRings, TakesOneMore, Traffic, rings_of};
ghost use Rattle.pv_model.specs.LiveScript.{Request};
ghost use Rattle.pv_protocol.specs.State.{Setup};

use pv_law_histories::{histories_grow, passed_messages_fit_together};

/// Sites between which rings stand pass messages on, so that their histories fit together: whatever the rings lose or count twice, a message that a site took in was
/// posted to it.
pub fn rings_pass_messages()
    ensures pass { (setup : Setup) (histories : List (List Stamped)) (rings : ℕ → ℕ → Ring) → GoByRings setup histories rings → PassMessages setup histories }
    ensures fit { (setup : Setup) (histories : List (List Stamped)) (rings : ℕ → ℕ → Ring) → GoByRings setup histories rings → FitTogether setup histories }
{
    passed_messages_fit_together();
}

/// Sites that each go by their own ends of rings go by the rings between them, where each ring gave a beginning of what it took; so their histories fit together.
pub fn sites_go_by_rings()
    ensures go { (setup : Setup) (histories : List (List Stamped)) (all : List Traffic) → GoTogether setup histories all → GoByRings setup histories (rings_of all) }
    ensures fit { (setup : Setup) (histories : List (List Stamped)) (all : List Traffic) → GoTogether setup histories all → FitTogether setup histories }
{
    passed_messages_fit_together();
}

/// How one site's part goes on: it takes in one more, or takes from rings what comes to nothing.
pub fn sites_go_on()
    ensures more { (setup : Setup) (me : ℕ) (history : List Stamped) (entry : Stamped) (old new : Traffic) → GoesByItsRings setup me history old →
        TakesOneMore setup me history entry old new → GoesByItsRings setup me (history ++ entry ∷ []) new }
    ensures none { (setup : Setup) (me : ℕ) (history : List Stamped) (old new : Traffic) → GoesByItsRings setup me history old →
        new.offered ≡ old.offered → new.posted ≡ old.posted → GivesMore setup.catalog.sites old new → GoesByItsRings setup me history new }
{
    histories_grow();
}

/// Of what a client asks for by a ring, what stands in its site's history stands there each once, in the order of the script.
pub fn requests_stand_once()
    ensures { (client : ℕ) (script posted taken : List Request) (history : List Stamped) → AsksInOrder client script posted taken history →
        Sublist (asked_by client history) script }
{}

/// Of what a ring gave a site, what stands in the site's history stands there in the order in which it was posted, each message at most as often as it counts.
pub fn messages_stand_in_order()
    ensures { (from me : ℕ) (history : List Stamped) (left : List Sealed) (taken : List (Sealed × ℕ)) (sent : List (Parcel × ℕ)) →
        ComesInOrder from me history left taken → AllZip (SealsAlike from me) taken sent → Sublist (parcels_from from history) (counted sent) }
{}

/// How a ring goes on: it loses what it is offered, or takes it, however often it counts; what was taken from it stays so.
pub fn rings_go_on()
    ensures loses { (ring : Ring) (one : Sealed) → Brings ring → Brings (record ring { offered = ring.offered ++ one ∷ [] }) }
    ensures takes { (ring : Ring) (one : Sealed) (count : ℕ) → Brings ring →
        Brings (record ring { offered = ring.offered ++ one ∷ []; posted = ring.posted ++ (one, count) ∷ [] }) }
    ensures taken { (taken later : ℕ → List (Sealed × ℕ)) (sites to : ℕ) (intake : Intake) → ((from : ℕ) → from < sites → IsPrefix (taken from) (later from)) →
        WasTaken taken sites to intake → WasTaken later sites to intake }
{}

/// How what stands of a client's requests goes on: of one more that its site took the history has one more, or none where it was lost; and an entry that is none of
/// the client's leaves them.
pub fn requests_go_on()
    ensures stands { (client : ℕ) (taken : List Request) (history : List Stamped) (entry : Stamped) (asked : Request) → entry.intake ≡ request client asked →
        Sublist (asked_by client history) taken → Sublist (asked_by client (history ++ entry ∷ [])) (taken ++ asked ∷ []) }
    ensures lost { (client : ℕ) (taken : List Request) (history : List Stamped) (asked : Request) →
        Sublist (asked_by client history) taken → Sublist (asked_by client history) (taken ++ asked ∷ []) }
    ensures other { (client : ℕ) (history : List Stamped) (entry : Stamped) → with_asked client entry.intake [] ≡ [] →
        asked_by client (history ++ entry ∷ []) ≡ asked_by client history }
{}
