// How what is done with a text ends, apart from how the text was come by.
ghost use Rattle.std.specs.Prelude.{◌≡◌};

use crate::status::Status;

/// How the run of a text in memory ended, or the summary of one.
#[derive(Clone, Copy, Debug, PartialEq, Eq)]
pub enum TextEnd {
    /// The whole was written.
    Done,
    /// The text is malformed. Its first line at fault was named.
    Malformed,
    /// The output failed. A beginning of what was to be written was.
    WriteFault,
    /// There was no memory. A beginning of what was to be written was.
    NoMemory,
    /// The messages of the run have more bytes together than they may. The text of the events before the one in which they do was written, for a
    /// summary nothing.
    SentLimit,
}

impl TextEnd {
    ghost use Rattle.pv_run.specs.Statuses.{text_status};

    /// The status of a command that ends so.
    pub fn status(self) -> Status
        ensures { result ≡ text_status self }
    {
        match self {
            TextEnd::Done => Status::Done,
            TextEnd::Malformed => Status::Malformed,
            TextEnd::WriteFault => Status::WriteFault,
            TextEnd::NoMemory => Status::NoMemory,
            TextEnd::SentLimit => Status::SentLimit,
        }
    }
}

/// A text that was made is longer than an input may be.
#[derive(Clone, Copy, Debug, PartialEq, Eq)]
pub struct LongText;
