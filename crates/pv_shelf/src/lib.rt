//! What a site shows, published for readers: they see its items as they were after so many steps, without the site's turn.
//!
//! One writer adds what the site shows after a step, and publishes what it added. Each reader looks at what is published. The list of all
//! that was published only grows, and what a reader's look finds is a beginning of it, never a shorter one than before.
//!
//! A look waits for nobody. [`shelf`], [`ShelfWriter::publish`] and [`ShelfWriter::close`] may wait: they have the handle `Wait`.
#![tactic(auto)]

mod closing;
mod face;
mod looking;
mod opening;
mod part;
mod peek;
mod reader;
mod rule;
mod side;
mod view;
mod writer;

pub use face::Face;
pub use opening::{shelf, sure_face};
pub use part::{ShelfLog, ShelfPart};
pub use peek::{Peek, PeekError};
pub use reader::ShelfReader;
pub use writer::ShelfWriter;
