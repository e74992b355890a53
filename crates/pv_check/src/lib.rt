//! Whether a program may run, and what it then wants of each site.
#![tactic(auto)]

mod checking;
mod fitting;
mod marks;
mod plan;
mod scan;

pub use checking::check;
pub use fitting::fits;
pub use plan::{CheckError, Part, Plan};
