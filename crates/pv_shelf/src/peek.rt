// What a look at one item tells.
use crate::face::Face;
use thiserror::Error;

/// What a look found of an item.
#[derive(Debug, Drop, PartialEq, Eq)]
pub struct Peek {
    /// How many steps the site had made.
    pub steps: u64,
    /// What it showed of the item then.
    pub face: Face,
}

/// Why a look tells nothing.
#[derive(Clone, Copy, Debug, PartialEq, Eq, Error)]
pub enum PeekError {
    /// What is published is of so many steps, fewer than were asked for.
    #[error("behind")]
    Behind(u64),
    /// There was no memory for the face.
    #[error("no memory")]
    NoMemory,
}
