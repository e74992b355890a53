// What is so of a site that was opened on a log in which nothing was found.
ghost use Rattle.std.specs.Prelude.{◌≡◌, ℕ, true};
ghost use Rattle.pv_base.specs.Catalog.{Declared};
ghost use Rattle.pv_cell.specs.Box.{course_site};
ghost use Rattle.pv_cell.specs.Opens.{IsOpened};
ghost use Rattle.pv_protocol.specs.World.{first_site};
ghost use Rattle.pv_site.specs.Opens.{HasOpened};
ghost use Rattle.pv_site.specs.SiteState.{SiteState};

use pv_disk::Log;

/// A site whose opening read nothing from its log fits into a box, and stands where histories begin. The log needn't tell what it holds. The function does nothing:
/// it states a law.
pub fn new_sites_fit_boxes<L: Log>()
    ensures opened { (log : L) (me : ℕ) (catalog : Declared) (site : SiteState L) → site.first ≡ true →
        HasOpened L.model log me catalog site → IsOpened site }
    ensures first { (log : L) (me : ℕ) (catalog : Declared) (site : SiteState L) → site.first ≡ true →
        HasOpened L.model log me catalog site → course_site site ≡ first_site }
{}
