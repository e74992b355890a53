// What a program wants of each site, and why a program may not run.
ghost use Rattle.std.specs.Prelude.{◌≡◌, IfOk};

use pv_base::{NoMemory, SiteId, Want};
use std::alloc::{AllocError, AllocFailed, Global};
use std::marker::Model;
use thiserror::Error;

/// What a program wants of one site. In a plan that `check` answers it is one item at least.
#[derive(Debug, Drop)]
pub struct Part {
    /// The site.
    pub site: SiteId,
    /// What the program wants of the site's items; in a plan that `check` answers ascending by item, each item once.
    pub wants: Vec<Want>,
}

impl Model for Part {
    ghost use Rattle.pv_model.specs.Check as model;

    ghost Value = { model.Part };

    ghost use Rattle.pv_check.specs.PlanView.{plan_part};

    ghost view = { plan_part };
}

/// What a program wants of each site, known before the program runs.
///
/// A transaction asks for all of it before it runs, and for nothing more later: predeclared, or conservative, two-phase
/// locking (Bernstein, Hadzilacos and Goodman, 1987).
#[derive(Debug, Drop)]
pub struct Plan {
    /// The parts; in a plan that `check` answers ascending by site, each site once.
    pub parts: Vec<Part>,
}

/// Why a program may not run, or has no plan. The first cause that holds is reported, in the order in which they stand here.
#[derive(Clone, Copy, Debug, PartialEq, Eq, Error)]
pub enum CheckError {
    /// The program names no item: its plan would be empty.
    #[error("no item")]
    NoItem,
    /// The program names this many items, more than [`pv_base::MAX_PROGRAM_ITEMS`].
    #[error("too many items: {0}")]
    TooManyItems(u32),
    /// The program is a query, and an assignment stands in it, whether or not it would run.
    #[error("a query assigns")]
    Assigns,
    /// The program is a query, and no `return` stands in it.
    #[error("a query has no return")]
    NoReturn,
    /// There was no memory for the plan. The program has none of the causes above.
    #[error("no memory")]
    NoMemory,
}

impl From<NoMemory> for CheckError {
    ghost use Rattle.pv_check.specs.declared.plan.CheckError.TheVariants as error;

    ghost from_gives = { λ _ e. e ≡ error.NoMemory };

    fn from(_: NoMemory) -> Self {
        CheckError::NoMemory
    }
}

impl Plan {
    /// An equal plan, which shares nothing with this one. Its one error is [`NoMemory`]. The cost is linear in the count of
    /// wants.
    pub fn copy(&self, alloc: Global) -> Result<Plan, NoMemory>
        ensures { IfOk result (λ copy. copy.parts.items ≡ self.now.parts.items) }
    {
        let mut parts = Vec::new(alloc);
        for part in &self.parts {
            parts.push(part.copy(alloc)?)?;
        }
        Ok(Plan { parts })
    }
}

impl Part {
    // An equal part.
    fn copy(&self, alloc: Global) -> Result<Part, NoMemory>
        ensures { IfOk result (λ copy. copy ≡ self.now) }
    {
        let wants = Vec::from_slice(alloc, &self.wants)?;
        Ok(Part {
            site: self.site,
            wants,
        })
    }
}
