// An entry of a history, with its site.
ghost use Rattle.std.specs.Prelude.{◌≡◌};
ghost use Rattle.pv_law_histories.specs.Merge.{is_before};
ghost use Rattle.pv_merge.specs.Moments.{moment_of};

use pv_base::SiteId;
use pv_history::Entry;

/// An entry of a history, with its site.
#[derive(Clone, Copy)]
pub(crate) struct Moment<'a> {
    pub(crate) site: SiteId,
    pub(crate) entry: &'a Entry,
}

impl Moment<'_> {
    // Whether this one comes before the other: it has the lesser stamp, or the same one and the lesser site.
    pub(crate) fn is_before(&self, other: &Moment<'_>) -> bool
        ensures { result ≡ is_before (moment_of self.now) (moment_of other.now) }
    {
        let stamp = self.entry.stamp;
        let other_stamp = other.entry.stamp;
        stamp < other_stamp || stamp == other_stamp && self.site.0 < other.site.0
    }
}
