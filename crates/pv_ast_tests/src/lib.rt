//! The tests of pv_ast.
#![tactic(auto)]

#[cfg(test)]
mod tests;
