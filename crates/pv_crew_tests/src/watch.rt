// A gate that watches two desks, for the tests.
use pv_base::SiteId;
use pv_crew::Gate;
use std::sync::atomic::{AtomicBool, AtomicU32, Ordering};

// What has happened of a visit.
const NOTHING: u32 = 0;

const BEGUN: u32 = 1;

const VISITED: u32 = 2;

/// Sees whether what is done at a desk is done in order: the gate is told, the desk is visited, the gate is told again.
#[derive(Drop)]
pub struct Watch {
    stage: AtomicU32,
    visits: AtomicU32,
    wrong: AtomicBool,
}

impl Watch {
    /// Nothing was done.
    pub fn new() -> Watch {
        Watch {
            stage: AtomicU32::new(NOTHING),
            visits: AtomicU32::new(0),
            wrong: AtomicBool::new(false),
        }
    }

    /// The desk is visited.
    pub fn visit(&self) {
        self.step(BEGUN, VISITED);
        let visits = self.visits.load(Ordering::SeqCst);
        self.visits.store(visits.wrapping_add(1), Ordering::SeqCst);
    }

    /// How often the desk was visited.
    pub fn visits(&self) -> u32 {
        self.visits.load(Ordering::SeqCst)
    }

    /// Whether all calls came in order, and the last visit was ended.
    pub fn is_in_order(&self) -> bool {
        !self.wrong.load(Ordering::SeqCst) && self.stage.load(Ordering::SeqCst) == NOTHING
    }

    // It is wrong to come to a stage from any but the one before.
    fn step(&self, from: u32, to: u32) {
        if self.stage.load(Ordering::SeqCst) != from {
            self.wrong.store(true, Ordering::SeqCst);
        }
        self.stage.store(to, Ordering::SeqCst);
    }
}

/// The gate of two desks.
#[derive(Drop)]
pub struct Watches {
    pub first: Watch,
    pub second: Watch,
}

impl Watches {
    /// Nothing was done at either.
    pub fn new() -> Watches {
        Watches {
            first: Watch::new(),
            second: Watch::new(),
        }
    }

    // The one at this site.
    fn at(&self, site: SiteId) -> &Watch {
        if site.0 == 0 {
            &self.first
        } else {
            &self.second
        }
    }
}

impl Gate for Watches {
    fn before(&self, site: SiteId) {
        self.at(site).step(NOTHING, BEGUN);
    }

    fn after(&self, site: SiteId) {
        self.at(site).step(VISITED, NOTHING);
    }
}
