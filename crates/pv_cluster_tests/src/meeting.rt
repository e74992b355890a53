// A gate at which visits to two sites meet, for the tests.
use pv_base::SiteId;
use pv_cluster::Gate;
use std::sync::atomic::{AtomicBool, Ordering};

// How often is looked for a visit to the other site.
const MAX_LOOKS: u32 = 1_000_000_000;

/// A gate that lets no visit to one of two sites begin before one to the other is about to.
#[derive(Drop)]
pub(crate) struct Meeting {
    first: AtomicBool,
    second: AtomicBool,
    missed: AtomicBool,
}

impl Meeting {
    /// No visit was about to begin.
    pub(crate) fn new() -> Meeting {
        Meeting {
            first: AtomicBool::new(false),
            second: AtomicBool::new(false),
            missed: AtomicBool::new(false),
        }
    }

    /// Whether visits to both sites were about to begin at once.
    pub(crate) fn have_met(&self) -> bool {
        self.first.load(Ordering::SeqCst)
            && self.second.load(Ordering::SeqCst)
            && !self.missed.load(Ordering::SeqCst)
    }

    // Waits for a visit to the other site, and gives up after so many looks.
    fn meet(&self, own: &AtomicBool, other: &AtomicBool) {
        own.store(true, Ordering::SeqCst);
        for _ in 0..MAX_LOOKS {
            if other.load(Ordering::SeqCst) {
                return;
            }
        }
        self.missed.store(true, Ordering::SeqCst);
    }
}

impl Gate for Meeting {
    fn before(&self, site: SiteId) {
        if site.0 == 0 {
            self.meet(&self.first, &self.second);
        } else {
            self.meet(&self.second, &self.first);
        }
    }

    fn after(&self, _site: SiteId) {}
}
