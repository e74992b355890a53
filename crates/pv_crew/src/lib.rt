//! Threads that serve what is in turns: workers that go round it, and clients that ask it by rings.
#![tactic(auto)]

mod client;
mod closing;
mod dealing;
mod gate;
mod round;
mod running;
mod serving;
mod visited;
mod work;

pub use client::{Client, MAX_LOOKS};
pub use gate::{Gate, IdleGate};
pub use serving::serve;
pub use visited::Visited;
pub use work::MAX_IDLE;
