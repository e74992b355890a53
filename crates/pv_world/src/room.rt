// Room for the disks of all sites, made when the world is, so that closing it wants no memory.
ghost use Rattle.std.specs.Prelude.{◌≤◌, List, length};
ghost use Rattle.pv_base.specs.Catalog.{Declared};
ghost use Rattle.pv_base.specs.declared.limits.TheConstants.{MAX_SITES};
ghost use Rattle.pv_protocol.specs.State as model;
ghost use Rattle.pv_world.specs.Disks.{HoldSites};
ghost use Rattle.pv_world.specs.Stands.{StandForSites};

use crate::cell::Cell;
use pv_base::{MAX_SITES, NoMemory};
use pv_disk::MemDisk;
use std::alloc::Global;
use std::marker::Model;

/// Room for the disks of as many sites as there may be. There is none in it yet.
#[derive(Drop)]
pub(crate) struct Room {
    /// No disks, with room for all.
    disks: Vec<MemDisk>,
}

// Clauses see nothing of it, so that what is said of a world speaks of no memory.
impl Model for Room {
    ghost use Rattle.std.specs.Prelude.{◌≡◌, ◌≤◌, [], vec_capacity};
    ghost use Rattle.pv_base.specs.declared.limits.TheConstants.{MAX_SITES};

    ghost Value = { Unit {0} };

    ghost view = { λ _. tt };

    ghost invariant = { λ s. (s.disks.items ≡ []) × (MAX_SITES ≤ vec_capacity s.disks) };
}

impl Room {
    /// Room for all.
    pub(crate) fn new(alloc: Global) -> Result<Room, NoMemory> {
        Ok(Room {
            disks: Vec::with_capacity(alloc, MAX_SITES as usize)?,
        })
    }

    /// The disks of the sites, in their order. It wants no memory.
    pub(crate) fn fill(self, cells: Vec<Cell>) -> Vec<MemDisk>
        requires stand { (catalog : Declared) × (sites : List model.Site) × StandForSites catalog 0 cells.items sites }
        requires few { length cells.items ≤ MAX_SITES }
        ensures { (catalog : Declared) (sites : List model.Site) → StandForSites catalog 0 cells.items sites → HoldSites result.items sites }
    {
        let mut disks = self.disks;
        for cell in cells {
            disks.push_reserved(cell.close());
        }
        disks
    }
}
