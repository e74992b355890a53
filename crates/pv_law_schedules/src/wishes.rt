// A law on what clients of live scripts want.
ghost use Rattle.std.specs.Prelude.{ℕ, List, All};
ghost use Rattle.pv_law_schedules.specs.Wishes.{AreNumbered, IsLookHome};
ghost use Rattle.pv_model.specs.LiveScript.{LiveScript};
ghost use Rattle.pv_model.specs.Schedule.{IsLiveScript};

/// Each thing that a client of a live script wants has the number of its place, and each item that a client looks at is at its site.
pub fn wishes_are_in_place()
    ensures numbers { (text : List ℕ) (script : LiveScript) → IsLiveScript text script → All (λ client. AreNumbered client.requests) script.clients }
    ensures looks { (text : List ℕ) (script : LiveScript) → IsLiveScript text script →
        All (λ client. All (IsLookHome script.catalog.items client.site) client.requests) script.clients }
{}
