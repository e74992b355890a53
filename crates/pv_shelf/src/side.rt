// What readers look at.
ghost use Rattle.std.specs.Prelude.{◌≡◌, [], ◌∷◌, ◌++◌};

use crate::part::ShelfPart;
use left_right::Absorb;
use std::alloc::{AllocError, Global};

/// All that is published, in order. A shelf has two of it: readers look at one while the writer changes the other.
#[derive(Drop)]
pub struct Side {
    alloc: Global,
    pub(crate) parts: Vec<ShelfPart>,
}

impl Side {
    /// Nothing is published.
    pub(crate) fn new(alloc: Global) -> Side
        ensures { result.parts.items ≡ [] }
    {
        Side {
            alloc,
            parts: Vec::new(alloc),
        }
    }

    /// All of it.
    pub(crate) fn into_parts(self) -> Vec<ShelfPart>
        ensures { result ≡ self.parts }
    {
        let Side { alloc: _, parts } = self;
        parts
    }
}

impl Absorb<ShelfPart> for Side {
    // A contract reads an array as a list, of any length.
    type State = [ShelfPart; 0];

    ghost state = { λ shown. shown.parts.items };

    ghost applied = { λ parts part. parts ++ part ∷ [] };

    fn absorb_first(&mut self, operation: &ShelfPart, _other: &Side) -> Result<(), AllocError> {
        let Ok(part) = operation.copy(self.alloc) else {
            return Err(AllocError);
        };
        match self.parts.push(part) {
            Ok(()) => Ok(()),
            Err(_) => Err(AllocError),
        }
    }

    fn absorb_second(&mut self, operation: ShelfPart, _other: &Side) -> Result<(), ShelfPart> {
        match self.parts.push(operation) {
            Ok(()) => Ok(()),
            Err(failed) => Err(failed.value),
        }
    }
}
