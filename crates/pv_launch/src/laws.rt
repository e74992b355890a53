// What is so of sites that were launched.
ghost use Rattle.std.specs.Prelude.{ℕ, ◌<◌, List, get_or, length};
ghost use Rattle.pv_base.specs.Catalog.{Declared};
ghost use Rattle.pv_ckpt.specs.declared.ckpt_log.CkptLog.{CkptLog};
ghost use Rattle.pv_launch.specs.Launching.{AreLaunched, IsLaunched};
ghost use Rattle.pv_site.specs.SiteState.{SiteState};

use pv_disk::Bay;

/// Each of the sites that were launched is the one of its number. The function does nothing: it states a law.
pub fn launched_sites_are_numbered<B: Bay>()
    ensures { (catalog : Declared) (old new : B) (sites : List (SiteState (CkptLog B.D))) → AreLaunched B.model B.D.model catalog old new sites →
        (n : ℕ) (any : SiteState (CkptLog B.D)) → n < length sites → IsLaunched B.model B.D.model catalog old n (get_or sites n any) }
{}
