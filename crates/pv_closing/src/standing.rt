// Boxes and clients that stand together do so later.
ghost use Rattle.std.specs.Prelude.{ℕ, ◌<◌, All, List, get_or, length};
ghost use Rattle.pv_cell.specs.declared.site_box.SiteBox.{SiteBox};
ghost use Rattle.pv_closing.specs.Closing.{GoOn};
ghost use Rattle.pv_closing.specs.Ended.{AskOn};
ghost use Rattle.pv_closing.specs.Standing.{StandTogether};
ghost use Rattle.pv_closing.specs.declared.ended.Ended.{Ended};
ghost use Rattle.pv_opening.specs.Opened.{AnswersSurely, FailsBy, HasPlaces};
ghost use Rattle.pv_post.specs.declared.fault_plan.FaultPlan.{FaultPlan};
ghost use Rattle.pv_script.specs.declared.live.Client.{Client};
ghost use Rattle.pv_script.specs.declared.live.LiveScript.{LiveScript};

use pv_disk::Log;

/// Boxes and clients that stand together do so later, when the boxes have gone on and the clients ask on by the same rings. As boxes go on, also before
/// there are such clients, they have as many rings from clients, and those to sites and to clients fail by the same plans. The function does nothing: it states a law.
pub fn boxes_stand_on<L: Log>()
    ensures together { (script : LiveScript) (boxes later : List (SiteBox L)) (clients asking : List Ended) → StandTogether L.model script boxes clients →
        GoOn L.model boxes later → AskOn clients asking → StandTogether L.model script later asking }
    ensures places { (clients : List Client) (boxes later : List (SiteBox L)) → GoOn L.model boxes later →
        ((n : ℕ) (any : SiteBox L) → n < length boxes → HasPlaces clients n (get_or boxes n any)) →
        (n : ℕ) (any : SiteBox L) → n < length later → HasPlaces clients n (get_or later n any) }
    ensures plans { (plan : FaultPlan) (boxes later : List (SiteBox L)) → GoOn L.model boxes later → All (FailsBy plan) boxes → All (FailsBy plan) later }
    ensures answers { (boxes later : List (SiteBox L)) → GoOn L.model boxes later → All AnswersSurely boxes → All AnswersSurely later }
{}
