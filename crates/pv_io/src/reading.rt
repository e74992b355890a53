// How all of a source is read.
ghost use Rattle.pv_io.specs.SourceEffects.{ReadsAll};

use crate::{ReadEnd, Source};
use pv_base::buffer;
use std::alloc::Global;

// How much one read asks for, in bytes.
const PIECE: usize = 65_536;

/// All the bytes that the source has left, where they are no more than `limit`. It reads in pieces of up to 64 KiB.
///
/// - [`ReadEnd::Failed`]: a read failed before more than `limit` bytes had come, and the source counted the fault. What came
///   before is taken from the source, and the read that failed took nothing.
/// - [`ReadEnd::TooLong`]: more than `limit` bytes came. Up to one piece more than `limit` may have been taken from the
///   source, and it may have more left.
/// - [`ReadEnd::NoMemory`]: there was no memory. Either nothing was taken, where it was missing before the first read,
///   or all that came, with the piece for which it was missing.
///
/// After an error the bytes that were taken are lost, and the source still has the others. The cost is linear in the
/// bytes that are taken and in the count of reads, beside 64 KiB that are cleared once.
pub fn read_all<R: Source>(alloc: Global, source: &mut R, limit: u64) -> Result<Vec<u8>, ReadEnd>
    ensures { ReadsAll R.Source limit source.old source.new result }
{
    let mut bytes = Vec::new(alloc);
    let mut piece = buffer(alloc, PIECE)?;
    loop {
        let count = source.read(&mut piece)?;
        if count == 0 {
            return Ok(bytes);
        }
        if count as u64 > limit - bytes.len() as u64 {
            return Err(ReadEnd::TooLong);
        }
        let (front, _) = piece.split_at(count);
        bytes.extend_from_slice(front)?;
    }
}
