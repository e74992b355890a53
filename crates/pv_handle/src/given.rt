// Bytes that a host asks for, and the room that it has for them.
ghost use Rattle.pv_handle.specs.Given.{GivesBytes};

/// What came of asking for bytes.
#[derive(Clone, Copy, Debug, PartialEq, Eq)]
pub enum Given {
    /// There is nothing now.
    Nothing,
    /// So many bytes were written.
    Bytes {
        /// How many.
        count: usize,
        /// Where they go: a place in the journal, or a site.
        to: u64,
    },
    /// There are so many bytes, and less room. Nothing was written, and the same bytes come again.
    TooSmall {
        /// How many there are.
        needed: usize,
    },
}

/// Writes the bytes, if there is room for all.
pub(crate) fn give(bytes: &[u8], to: u64, out: &mut [u8]) -> Given
    ensures { GivesBytes bytes.now to out.old out.new result }
{
    if out.len() < bytes.len() {
        return Given::TooSmall {
            needed: bytes.len(),
        };
    }
    let (room, _) = out.split_at_mut(bytes.len());
    room.copy_from_slice(bytes);
    Given::Bytes {
        count: bytes.len(),
        to,
    }
}
