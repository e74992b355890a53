// The refusal of a read.
use thiserror::Error;

/// Fewer bytes are left than a read takes. This is the place, from 0, at which it began, and where the next one begins too.
#[derive(Clone, Copy, Debug, PartialEq, Eq, Error)]
#[error("the bytes end within what begins at {0}")]
pub struct Short(pub usize);
