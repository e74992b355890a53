//! What polydb's sites do, as plain data: a site's records and the values that they show, its step for each input, the world
//! of all sites, its runs, and what they print. It holds definitions alone, in `specs/`.
#![tactic(auto)]
