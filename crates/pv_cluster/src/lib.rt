//! Sites on threads: a live script is run by workers that visit the sites' boxes and by clients that ask, and closed, so that what each site took in, and the line of each
//! request, is known.
#![tactic(auto)]

mod closed;
mod ending;
mod looking;
mod running;
mod serving;

pub use closed::Closed;
pub use pv_closing::{ClientLine, ClientWhat};
pub use pv_crew::{Gate, IdleGate};
pub use running::{MAX_WORKERS, run};
