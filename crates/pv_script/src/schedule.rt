// What a schedule says, and why a text is no script.
ghost use Rattle.std.specs.Prelude.{◌≡◌, Some};
ghost use Rattle.pv_script.specs.CauseTexts.{cause_text, error_text};
ghost use Rattle.pv_script.specs.ScriptErrors.{line_cause_of};

use pv_ast::Program;
use pv_base::{Catalog, Mode, NoMemory, SiteId};
use pv_check::Plan;
use std::alloc::{AllocError, AllocFailed};
use std::error::Error;
use std::fmt;

/// What happens in a run.
#[derive(Debug, Drop)]
pub enum Event {
    /// A request at a site: its program is to run.
    Submit {
        /// The site, which coordinates the transaction.
        site: SiteId,
        /// Whether the program only answers: it assigns nothing and has a `return`.
        query: bool,
        /// The program's text, as it stands in the line.
        text: Vec<u8>,
        /// The program.
        program: Program,
        /// What it wants of each site.
        plan: Plan,
    },
    /// The message of this number is delivered.
    Deliver(u64),
    /// All messages that were neither delivered nor lost are delivered, or at most so many.
    Pump(Option<u32>),
    /// The message of this number is lost.
    Lose(u64),
    /// All messages to the site that were neither delivered nor lost are lost.
    Drop(SiteId),
    /// The site's clock ticks.
    Tick(SiteId),
    /// The site stops.
    Stop(SiteId),
    /// The site starts.
    Start(SiteId),
    /// A write or a sync of the site's disk is to stop it or to fail.
    Arm {
        /// The site.
        site: SiteId,
        /// Which of its writes and syncs from now on, from 1.
        k: u32,
        /// What is left of what wasn't synced.
        mode: Mode,
        /// Whether the site stops there. Else the call fails.
        stop: bool,
    },
    /// No write or sync of the site is to stop or to fail any more.
    Mend(SiteId),
    /// A site writes its log anew, packed.
    Checkpoint(SiteId),
    /// A list of the messages.
    Sent,
    /// A report of the transactions and of all items.
    Report,
    /// The sum of all items.
    Total,
}

/// What is declared, and what happens then, in the order of the lines.
#[derive(Debug, Drop)]
pub struct Schedule {
    /// The sites, the limit of their journals, and the items.
    pub catalog: Catalog,
    /// What happens, in order.
    pub events: Vec<Event>,
}

/// What is wrong with a line, in the order in which it is tested. Columns count the bytes of the program's text, from 1.
#[derive(Clone, Copy, Debug, PartialEq, Eq)]
pub enum LineCause {
    /// It has more than [`MAX_LINE`](pv_base::MAX_LINE) bytes, without its end, or in a live script more than
    /// [`MAX_LIVE_LINE`](pv_base::MAX_LIVE_LINE).
    TooLong,
    /// A byte isn't printable ASCII, a space or a tab.
    NotText,
    /// The first significant line doesn't begin with `sites`, or there is none.
    SitesExpected,
    /// The first word isn't one that a line of such a script begins with.
    UnknownWord,
    /// A second `sites`, `journal` or `plan`.
    Twice,
    /// A `journal`, an `item` or a `plan` after an event or a client.
    TooLate,
    /// There are too few or too many words. A program counts as one.
    WrongCount,
    /// A request or a look before the first client.
    ClientExpected,
    /// There are [`MAX_CLIENTS`](pv_base::MAX_CLIENTS) clients.
    TooManyClients,
    /// The client wants [`MAX_REQUESTS`](pv_base::MAX_REQUESTS) things.
    TooManyRequests,
    /// No item has the name.
    NoSuchItem,
    /// The item is at another site than the client's.
    OtherSite,
    /// A number isn't one, or isn't in its range.
    BadNumber,
    /// A mode isn't `lost`, `kept` or `torn`.
    BadMode,
    /// The name of an item isn't a name.
    BadName,
    /// An item has the name.
    NameTaken,
    /// There are [`MAX_ITEMS`](pv_base::MAX_ITEMS) items.
    TooManyItems,
    /// The program's leftmost fault is at this column, and one of its grammar.
    ProgramColumn(u32),
    /// The program's leftmost fault is at this column: a name that no item has.
    UnknownName(u32),
    /// The program's leftmost fault is at this column: a token nested deeper than
    /// [`MAX_DEPTH`](pv_base::MAX_DEPTH).
    TooDeep(u32),
    /// The program names no item.
    NamesNoItem,
    /// The program names this many items, more than [`MAX_PROGRAM_ITEMS`](pv_base::MAX_PROGRAM_ITEMS).
    TooManyNames(u32),
    /// A query has an assignment.
    QueryAssigns,
    /// A query has no `return`.
    NoReturn,
    /// It is no line of a trace, or an event of one whose lines aren't whole. No line of a script has this cause.
    NotATrace,
}

/// Why a text wasn't read as a schedule, or as a live script.
#[derive(Clone, Copy, Debug, PartialEq, Eq)]
pub enum ScriptError {
    /// A line is at fault, and none before it.
    Malformed {
        /// The line's number, from 1. Where no line is significant, it is the number after the last one.
        line: u32,
        /// What is wrong with it.
        cause: LineCause,
    },
    /// There was no memory.
    NoMemory,
}

impl fmt::Display for LineCause {
    ghost output = { λ cause. Some (cause_text (line_cause_of cause)) };

    #[tactic(auto, unfolding(crate::specs::CauseTexts::cause_text))]
    fn fmt<W: fmt::Write>(&self, f: &mut fmt::Formatter<W>) -> fmt::Result {
        match self {
            LineCause::TooLong => f.write_str("too long"),
            LineCause::NotText => f.write_str("not text"),
            LineCause::SitesExpected => f.write_str("sites expected"),
            LineCause::UnknownWord => f.write_str("unknown word"),
            LineCause::Twice => f.write_str("twice"),
            LineCause::TooLate => f.write_str("too late"),
            LineCause::WrongCount => f.write_str("wrong count"),
            LineCause::ClientExpected => f.write_str("client expected"),
            LineCause::TooManyClients => f.write_str("too many clients"),
            LineCause::TooManyRequests => f.write_str("too many requests"),
            LineCause::NoSuchItem => f.write_str("no such item"),
            LineCause::OtherSite => f.write_str("other site"),
            LineCause::BadNumber => f.write_str("bad number"),
            LineCause::BadMode => f.write_str("bad mode"),
            LineCause::BadName => f.write_str("bad name"),
            LineCause::NameTaken => f.write_str("name taken"),
            LineCause::TooManyItems => f.write_str("too many items"),
            LineCause::ProgramColumn(column) => write!(f, "program column {column}"),
            LineCause::UnknownName(column) => write!(f, "unknown name column {column}"),
            LineCause::TooDeep(column) => write!(f, "too deep column {column}"),
            LineCause::NamesNoItem => f.write_str("names no item"),
            LineCause::TooManyNames(count) => write!(f, "too many names {count}"),
            LineCause::QueryAssigns => f.write_str("query assigns"),
            LineCause::NoReturn => f.write_str("no return"),
            LineCause::NotATrace => f.write_str("not a trace"),
        }
    }
}

impl fmt::Display for ScriptError {
    ghost output = { λ error. Some (error_text error) };

    fn fmt<W: fmt::Write>(&self, f: &mut fmt::Formatter<W>) -> fmt::Result {
        match self {
            ScriptError::Malformed { line, cause } => write!(f, "line {line}: {cause}"),
            ScriptError::NoMemory => f.write_str("no memory"),
        }
    }
}

impl Error for ScriptError {}

impl From<NoMemory> for ScriptError {
    ghost use Rattle.pv_script.specs.declared.schedule.ScriptError.TheVariants as error;

    ghost from_gives = { λ _ e. e ≡ error.NoMemory };

    fn from(_: NoMemory) -> Self {
        ScriptError::NoMemory
    }
}

impl From<AllocError> for ScriptError {
    ghost use Rattle.pv_script.specs.declared.schedule.ScriptError.TheVariants as error;

    ghost from_gives = { λ _ e. e ≡ error.NoMemory };

    fn from(_: AllocError) -> Self {
        ScriptError::NoMemory
    }
}

impl<T: Drop> From<AllocFailed<T>> for ScriptError {
    ghost use Rattle.pv_script.specs.declared.schedule.ScriptError.TheVariants as error;

    ghost from_gives = { λ _ e. e ≡ error.NoMemory };

    fn from(_: AllocFailed<T>) -> Self {
        ScriptError::NoMemory
    }
}
