//! The tests of pv_tree, and that it gives the cases that pv_poly gives.
#![tactic(auto)]

#[cfg(test)]
mod both;
mod laws;
#[cfg(test)]
mod tests;

pub use laws::both_forms_have_one_list_of_cases;
