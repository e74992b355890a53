// The writer of a shelf.
ghost use Rattle.std.specs.Prelude.{◌<◌, ◌++◌, drop, length};
ghost use Rattle.pv_shelf.specs.Log.{IsLog};

use crate::face::{Face, copy_faces};
use crate::part::ShelfPart;
use crate::rule::{Looks, Published};
use crate::side::Side;
use crate::view::View;
use core::mem::replace_with;
use left_right::writer::Writer;
use pv_base::NoMemory;
use std::alloc::Global;
use std::sync::Wait;

/// It publishes. It ends by [`close`](ShelfWriter::close), and can't be dropped.
///
/// Contracts see all that is published (`published`), and what was added and isn't published yet (`pending`).
pub struct ShelfWriter {
    pub(crate) writer: Writer<Side, ShelfPart, View, Published>,
    pub(crate) alloc: Global,
    ghost log: { IsLog (writer.desk.shown.value.parts.items ++ drop writer.behind writer.log.items) },
    ghost some: { 0 < length writer.desk.shown.value.parts.items },
}

impl ShelfWriter {
    ghost use Rattle.std.specs.Prelude.{◌≡◌, [], ◌∷◌, OnOk, OnErr};
    ghost use Rattle.pv_shelf.specs.Log.{steps_of, width_of};
    ghost use Rattle.pv_shelf.specs.Shelves.{published, pending, added};

    /// Adds what the site shows after so many steps, more than those of what was added last: one face for each of its items, ascending. It
    /// isn't published yet. Without memory nothing changes. The cost is that of copying the faces.
    pub fn add(&mut self, steps: u64, faces: &[Face]) -> Result<(), NoMemory>
        requires later { steps_of (added self.old) < steps }
        requires faces { length faces.now ≡ width_of (published self.old) }
        ensures published { published self.new ≡ published self.old }
        ensures added { OnOk result (pending self.new ≡ pending self.old ++ record { steps = steps; faces = faces.now } ∷ []) }
        ensures unchanged { OnErr result (pending self.new ≡ pending self.old) }
    {
        let faces = copy_faces(self.alloc, faces)?;
        match self.writer.append(ShelfPart { steps, faces }) {
            Ok(()) => Ok(()),
            Err(_) => Err(NoMemory),
        }
    }

    /// Publishes what was added, in order, and nothing is pending then. Without memory what is published and what is pending are as before.
    ///
    /// It waits for readers that are still in a look that they began before the publication before this one. The cost is that of copying the faces that were added.
    pub fn publish<R: Wait>(&mut self, rt: &R) -> Result<(), NoMemory>
        ensures published { OnOk result (published self.new ≡ added self.old) }
        ensures none_pending { OnOk result (pending self.new ≡ []) }
        ensures unchanged { OnErr result ((published self.new ≡ published self.old) × (pending self.new ≡ pending self.old)) }
    {
        replace_with(
            self,
            rt,
            |shelf: ShelfWriter, rt: &R| -> (ShelfWriter, Result<(), NoMemory>)
                ensures { OnOk result.1 ((published result.0 ≡ added shelf) × (pending result.0 ≡ []))
                    × OnErr result.1 ((published result.0 ≡ published shelf) × (pending result.0 ≡ pending shelf)) }
            { shelf.published(rt) },
        )
    }

    // The same of a shelf at hand.
    fn published<R: Wait>(self, rt: &R) -> (ShelfWriter, Result<(), NoMemory>)
        ensures published { OnOk result.1 ((published result.0 ≡ added self) × (pending result.0 ≡ [])) }
        ensures unchanged { OnErr result.1 ((published result.0 ≡ published self) × (pending result.0 ≡ pending self)) }
    {
        let ShelfWriter { writer, alloc } = self;
        match writer.publish_as::<Looks, R>(rt) {
            (writer, Ok(())) => (ShelfWriter { writer, alloc }, Ok(())),
            (writer, Err(_)) => (ShelfWriter { writer, alloc }, Err(NoMemory)),
        }
    }
}
