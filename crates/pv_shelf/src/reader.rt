// The readers of a shelf.
ghost use Rattle.std.specs.Prelude.{◌≡◌, ◌<◌, length};
ghost use Rattle.left_right.specs.Sides.{view};
ghost use Rattle.std.specs.List.{AllPairs};
ghost use Rattle.pv_shelf.specs.Log.{IsLog, steps_of, width_of};

use crate::looking::{missed, peek_at, place_of};
use crate::peek::{Peek, PeekError};
use crate::rule::{Looks, Published};
use crate::side::Side;
use crate::view::View;
use core::mem::replace_with;
use left_right::reader::Reader;
use pv_base::ItemId;
use std::alloc::Global;

/// It looks at what is published. It may go to a thread of its own.
///
/// Contracts see the list that its last look found (`seen`), how often it has looked (`look_count`), and the items of the site (`items_of`).
#[derive(Drop)]
pub struct ShelfReader {
    pub(crate) reader: Reader<Side, View, Published>,
    pub(crate) alloc: Global,
    /// The numbers of the site's items, ascending.
    pub(crate) items: Vec<u32>,
    /// The steps that its last look found.
    pub(crate) steps: u64,
    ghost rising: { AllPairs (λ item later. item < later) items.items },
    ghost log: { IsLog (view reader.place).seen },
    ghost some: { 0 < length (view reader.place).seen },
    ghost width: { width_of (view reader.place).seen ≡ length items.items },
    ghost last: { steps ≡ steps_of (view reader.place).seen },
}

impl ShelfReader {
    ghost use Rattle.std.specs.Prelude.{◌≤◌, ◌+◌, ℕ, Some, slice_get, MatchResult, OnOk};
    ghost use Rattle.std.specs.List.{Contains};
    ghost use mathlib.Core.List.{IsPrefix};
    ghost use Rattle.pv_shelf.specs.Peeks.{IsAnswer, IsAnswerAt};
    ghost use Rattle.pv_shelf.specs.Shelves.{seen, look_count, items_of};

    /// Looks at what is published, and tells what the site shows of its item there, after at least so many steps.
    ///
    /// - [`PeekError::Behind`]: what is published is of fewer steps. It says of how many.
    /// - [`PeekError::NoMemory`]: it is of enough steps, and there was no memory for the face.
    ///
    /// It waits for nobody. While it copies the face, the writer can publish once, and waits for it before it publishes again. Where the
    /// writer is gone, it goes by what its last look found, and has no memory for it. The cost is that of copying the face, and logarithmic in
    /// the items of the site.
    pub fn read(&mut self, item: ItemId, least: u64) -> Result<Peek, PeekError>
        requires item { Contains (items_of self.old) item.0 }
        ensures items { items_of self.new ≡ items_of self.old }
        ensures grows { IsPrefix (seen self.old) (seen self.new) }
        ensures rises { steps_of (seen self.old) ≤ steps_of (seen self.new) }
        ensures answer { IsAnswer (items_of self.new) (seen self.new) item.0 least result }
        ensures looked { OnOk result (look_count self.new ≡ look_count self.old + 1) }
    {
        let place = place_of(&self.items, item);
        replace_with(
            self,
            (place, least),
            |reader: ShelfReader, asked: (usize, u64)| -> (ShelfReader, Result<Peek, PeekError>)
                requires { asked.0 < length (items_of reader) }
                ensures { (items_of result.0 ≡ items_of reader) × IsPrefix (seen reader) (seen result.0)
                    × (steps_of (seen reader) ≤ steps_of (seen result.0)) × IsAnswerAt (seen result.0) asked.0 asked.1 result.1
                    × OnOk result.1 (look_count result.0 ≡ look_count reader + 1) }
            { reader.read_at(asked.0, asked.1) },
        )
    }

    // The same of the item in this place.
    fn read_at(self, place: usize, least: u64) -> (ShelfReader, Result<Peek, PeekError>)
        requires item { place < length (items_of self) }
        ensures items { items_of result.0 ≡ items_of self }
        ensures grows { IsPrefix (seen self) (seen result.0) }
        ensures rises { steps_of (seen self) ≤ steps_of (seen result.0) }
        ensures answer { IsAnswerAt (seen result.0) place least result.1 }
        ensures looked { OnOk result.1 (look_count result.0 ≡ look_count self + 1) }
    {
        let ShelfReader {
            reader,
            alloc,
            items,
            steps,
        } = self;
        match reader.enter_as::<Looks>() {
            Ok(reading) => {
                let (steps, answer) = peek_at(alloc, &reading.get().parts, place, least);
                let reader = ShelfReader {
                    reader: reading.leave(),
                    alloc,
                    items,
                    steps,
                };
                (reader, answer)
            }
            // There is a writer until the shelf is closed.
            Err(reader) => {
                let answer = missed(steps, least);
                let reader = ShelfReader {
                    reader,
                    alloc,
                    items,
                    steps,
                };
                (reader, Err(answer))
            }
        }
    }
}
