// Why bytes are no message.
ghost use Rattle.std.specs.Prelude.{◌≡◌};

use pv_replay::PolyError;
use thiserror::Error;

/// Why bytes are no message: the first fault in reading order. Places count from the first byte.
#[derive(Clone, Copy, Debug, PartialEq, Eq, Error)]
pub enum WireError {
    /// The first byte is this one, which is no kind of message.
    #[error("{0} is no kind of message")]
    BadKind(u8),
    /// The bytes end within the field at this place.
    #[error("the bytes end within the field at {0}")]
    Short(usize),
    /// The message ends before this place, and there are more bytes.
    #[error("the message ends before {0}")]
    Extra(usize),
    /// The field at this place is read, and isn't in the range or order that is asked for there. It is the kind where that tells of a value that isn't sure,
    /// and nothing is wrong but that all values are.
    #[error("the field at {0} is out of range")]
    BadField(usize),
    /// The polyvalue that begins at this place is read whole. Its count isn't that of its cases, they aren't canonical or name too many outcomes, or it isn't
    /// sure under the kind of those that are.
    #[error("the cases at {0} are no polyvalue")]
    BadPoly(usize),
    /// There was no memory.
    #[error("no memory")]
    NoMemory,
}

impl From<PolyError> for WireError {
    ghost use Rattle.pv_wire.specs.Faults.{wire_error};

    ghost from_gives = { λ part e. e ≡ wire_error part };

    fn from(part: PolyError) -> Self {
        match part {
            PolyError::Short(place) => WireError::Short(place),
            PolyError::BadField(place) => WireError::BadField(place),
            PolyError::BadPoly(place) => WireError::BadPoly(place),
            PolyError::NoMemory => WireError::NoMemory,
        }
    }
}
