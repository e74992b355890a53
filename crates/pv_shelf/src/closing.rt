// The end of a shelf.
ghost use Rattle.std.specs.Prelude.{◌≡◌, All, true};
ghost use mathlib.Core.List.{IsPrefix};
ghost use Rattle.pv_shelf.specs.Shelves.{published, seen};

use crate::part::{ShelfLog, ShelfPart};
use crate::reader::ShelfReader;
use crate::rule::Looks;
use crate::side::Side;
use crate::writer::ShelfWriter;
use std::sync::Wait;

impl ShelfWriter {
    /// Ends a shelf, and gives all that was published; what is pending is dropped. The readers are given back: what any of them has seen is a
    /// beginning of that list.
    ///
    /// Each of them looks once more, and it waits until that look finds the whole list. It finds it at once, since nothing more is published;
    /// only readers of another shelf would let it wait for ever. The cost is that of comparing the list, once for each reader.
    pub fn close<R: Wait>(self, rt: &R, readers: Vec<ShelfReader>) -> ShelfLog
        ensures log { result.parts.items ≡ published self }
        ensures readers { All (λ reader. IsPrefix (seen reader) result.parts.items) readers.items }
    {
        let ShelfWriter { writer, alloc: _ } = self;
        finish_all(rt, readers, &writer.published().parts);
        let side = Box::into_inner(writer.take(rt));
        ShelfLog {
            parts: side.into_parts(),
        }
    }
}

// Each of these readers looks until it finds this list.
fn finish_all<R: Wait>(rt: &R, readers: Vec<ShelfReader>, parts: &[ShelfPart])
    ensures { All (λ reader. IsPrefix (seen reader) parts.now) readers.items }
{
    let mut readers = readers;
    while let Some(reader) = readers.pop() {
        finish(rt, reader, parts);
    }
}

// The reader looks until it finds this list.
fn finish<R: Wait>(rt: &R, reader: ShelfReader, parts: &[ShelfPart])
    ensures { IsPrefix (seen reader) parts.now }
{
    let ShelfReader { reader, .. } = reader;
    let mut reader = reader;
    for _ in rt.forever() {
        match reader.enter_as::<Looks>() {
            Ok(reading) => {
                let whole = are_same(&reading.get().parts, parts);
                reader = reading.leave();
                if whole {
                    return;
                }
            }
            Err(back) => reader = back,
        }
    }
    unreachable!()
}

// Both lists are one, if it says so.
fn are_same(parts: &[ShelfPart], others: &[ShelfPart]) -> bool
    ensures { result ≡ true → parts.now ≡ others.now }
{
    parts == others
}
