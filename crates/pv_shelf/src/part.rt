// What is published at once, and the list of all that was.
ghost use Rattle.std.specs.Prelude.{◌≡◌, IfOk};

use crate::face::{Face, copy_faces};
use pv_base::NoMemory;
use std::alloc::Global;
use std::marker::Model;

/// What a site shows after so many steps. Contracts see the steps and the list of faces.
#[derive(Debug, Drop)]
pub struct ShelfPart {
    /// How many steps the site had made.
    pub steps: u64,
    /// The face of each item of the site, ascending.
    pub faces: Vec<Face>,
}

impl Model for ShelfPart {
    ghost use Rattle.pv_shelf.specs.Part.{Part};

    ghost Value = { Part };

    ghost view = { λ inside. record { steps = inside.steps; faces = inside.faces.items } };
}

impl PartialEq for ShelfPart {
    ghost use Rattle.std.specs.Cmp.Lexicographic.{pointwise};
    ghost use Rattle.std.specs.Cmp.Rules.{comparing};
    ghost use Rattle.std.specs.Ordering.{eq_of_both, on};
    ghost use Rattle.std.specs.Prelude.{◌==◌};
    ghost use Rattle.std.proofs.Common.{rules};
    ghost use Rattle.pv_shelf.specs.contracts.face.FacePartialEq.TheImpl as face;
    ghost use Rattle.pv_shelf.specs.contracts.face.FacePartialEq.TheImpl.Laws as face_laws;

    ghost eq = { eq_of_both (on (λ part. part.steps) (λ steps other. steps == other)) (on (λ part. part.faces) (pointwise face.ghosts.eq)) };

    ghost laws = { Prim.search (comparing, face_laws.laws-law, rules) depth 9 };

    fn eq(&self, other: &ShelfPart) -> bool {
        self.steps == other.steps && self.faces == other.faces
    }
}

impl ShelfPart {
    /// An equal part, in memory of its own.
    pub fn copy(&self, alloc: Global) -> Result<ShelfPart, NoMemory>
        ensures equal { IfOk result (λ copy. copy ≡ self.now) }
    {
        Ok(ShelfPart {
            steps: self.steps,
            faces: copy_faces(alloc, &self.faces)?,
        })
    }
}

/// All that was published on a shelf, in order.
#[derive(Debug, Drop)]
pub struct ShelfLog {
    /// The first is what was declared, after no steps.
    pub parts: Vec<ShelfPart>,
}
