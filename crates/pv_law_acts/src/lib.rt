//! Laws of the acts that runs are made of. The functions do nothing: each states a law.
#![tactic(auto)]

mod acts;
mod numbers;

pub use acts::acts_are_steps;
pub use numbers::{numbers_are_given_once, numbers_in_use_are_passed};
