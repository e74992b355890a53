// What is so of a live script that was read.
ghost use Rattle.std.specs.Prelude.{ℕ, ◌<◌, ◌≤◌, All, get_or, length};
ghost use Rattle.pv_base.specs.declared.limits.TheConstants.{MAX_CLIENTS, MAX_REQUESTS};
ghost use Rattle.pv_opening.specs.Counts.{count_at};
ghost use Rattle.pv_opening.specs.Opening.{IsHere, IsRead};
ghost use Rattle.pv_script.specs.declared.live.Client.{Client};
ghost use Rattle.pv_script.specs.declared.live.LiveScript.{LiveScript};

/// A live script that was read has few clients, each of a site of its catalog, that wants few things, and looks at items of its site alone. The function does nothing: it states a law.
pub fn live_scripts_are_small()
    ensures few { (script : LiveScript) → IsRead script → length script.clients.items ≤ MAX_CLIENTS }
    ensures places { (script : LiveScript) (site : ℕ) → IsRead script → count_at site script.clients.items ≤ MAX_CLIENTS }
    ensures fit { (script : LiveScript) (k : ℕ) (any : Client) → IsRead script → k < length script.clients.items →
        ((get_or script.clients.items k any).site.0 < script.catalog.sites) × (length (get_or script.clients.items k any).requests.items ≤ MAX_REQUESTS) }
    ensures here { (script : LiveScript) (k : ℕ) (any : Client) → IsRead script → k < length script.clients.items →
        All (IsHere script.catalog.items (get_or script.clients.items k any).site.0) (get_or script.clients.items k any).requests.items }
{}
