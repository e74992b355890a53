//! Live runs by two workers on threads of their own: one against a world, and one whose gate waits until both are about to visit.
#![tactic(auto)]

#[cfg(test)]
mod live_tests;
#[cfg(test)]
mod lived;
#[cfg(test)]
mod meeting;
#[cfg(test)]
mod records;
#[cfg(test)]
mod world;
