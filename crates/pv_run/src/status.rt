// How the program ends.
ghost use Rattle.std.specs.Prelude.{◌≡◌};

/// How a call of the program ended. The numbers are the exit codes.
#[derive(Clone, Copy, Debug, PartialEq, Eq)]
pub enum Status {
    /// The whole text was written and, for the commands that read one, the whole input read.
    Done = 0,
    /// The words are no command. The usage line was written.
    Usage = 2,
    /// The input is malformed. Its first line at fault was named.
    Malformed = 3,
    /// The input failed. Nothing was written.
    ReadFault = 4,
    /// The output failed. A beginning of the text was written.
    WriteFault = 5,
    /// The input is too long, or a text that was made. Nothing was written.
    TooLong = 6,
    /// There was no memory. A beginning of the text was written.
    NoMemory = 7,
    /// The messages of a run have more bytes together than they may. The text of the events before the one in which they do was written, for a
    /// summary nothing.
    SentLimit = 8,
    /// The bay failed to hand out a disk that was to be shown. Nothing was written.
    BayFault = 9,
    /// A disk on which a site was to start isn't empty. Nothing was written.
    NotEmpty = 10,
    /// A trace is refuted: a report in it doesn't agree with the serial run of its order. Which one was written, and where.
    Refuted = 11,
    /// A trace isn't judged to its end, since too many outcomes are open together. At which report, and how many, was written.
    Limit = 12,
}

impl Status {
    ghost use Rattle.pv_run.specs.InputAnswers.{exit_code};

    /// The exit code of a program that ends so.
    pub fn code(self) -> u8
        ensures { result ≡ exit_code self }
    {
        self as u8
    }
}
