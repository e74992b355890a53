// What a site shows of an item.
ghost use Rattle.std.specs.Prelude.{◌≡◌, IfOk};

use pv_base::{NoMemory, TxnId};
use pv_tree::Poly;
use std::alloc::Global;

/// What a site shows of one of its items.
#[derive(Debug, Drop, PartialEq, Eq)]
pub enum Face {
    /// The item's value, by the outcomes that it depends on.
    Cases(Poly<i64>),
    /// This transaction holds the item.
    Locked(TxnId),
    /// The site is down.
    Down,
}

impl Face {
    /// An equal face, in memory of its own.
    pub fn copy(&self, alloc: Global) -> Result<Face, NoMemory>
        ensures equal { IfOk result (λ copy. copy ≡ self.now) }
    {
        match self {
            Face::Cases(poly) => Ok(Face::Cases(poly.copy(alloc)?)),
            Face::Locked(txn) => Ok(Face::Locked(*txn)),
            Face::Down => Ok(Face::Down),
        }
    }
}

/// Equal faces, in memory of their own.
pub(crate) fn copy_faces(alloc: Global, faces: &[Face]) -> Result<Vec<Face>, NoMemory>
    ensures equal { IfOk result (λ copies. copies.items ≡ faces.now) }
{
    let mut copies = Vec::with_capacity(alloc, faces.len())?;
    for face in faces {
        copies.push(face.copy(alloc)?)?;
    }
    Ok(copies)
}
