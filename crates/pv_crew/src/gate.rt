// What is told when a worker has a site's turn.
use pv_base::SiteId;

/// Is told when a worker has a site's turn, so that a test can hold threads where it wants them.
pub trait Gate {
    /// A worker has the turn of the site, and hasn't begun its visit.
    fn before(&self, site: SiteId);

    /// The visit is done, and the worker still has the turn.
    fn after(&self, site: SiteId);
}

/// A gate that does nothing.
#[derive(Clone, Copy, Debug)]
pub struct IdleGate;

impl Gate for IdleGate {
    fn before(&self, _site: SiteId) {}

    fn after(&self, _site: SiteId) {}
}
