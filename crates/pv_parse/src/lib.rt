//! Program texts: the program that a text is over a catalog, or where and why it is none.
#![tactic(auto)]

mod cursor;
mod error;
mod expression;
mod lexer;
mod parser;
mod parsing;
mod statement;
mod token;

pub use error::ParseError;
pub use parsing::parse;
