//! Programs, and what they do to rows of ordinary values.
#![tactic(auto)]

mod arithmetic;
mod effect;
mod execution;
mod expr;
mod items;
mod program;
mod rows;

pub use effect::Effect;
pub use execution::exec;
pub use expr::{Expr, Op, Operand};
pub use program::{Program, Stmt};
pub use pv_base::{Decline, Reply};
pub use rows::Row;
