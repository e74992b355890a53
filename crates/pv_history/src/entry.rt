// The entries of a history.
use pv_base::SiteId;
use pv_script::Request;
use pv_site::Note;
use pv_wire::Message;

/// How many entries a history may have.
pub const MAX_ENTRIES: usize = 1_048_576;

/// What a site took in.
#[derive(Debug, Drop)]
pub enum Taken {
    /// A request.
    Request {
        /// The place of its client among the site's own.
        client: u32,
        /// The request.
        request: Request,
    },
    /// A message.
    Parcel {
        /// The site that sent it.
        from: SiteId,
        /// The stamp of the entry of the step that sent it.
        stamp: u64,
        /// Its place among the messages of that step.
        place: u32,
        /// The message.
        message: Message,
    },
    /// Time has passed.
    Tick,
}

/// What came of it.
#[derive(Debug, Drop)]
pub enum Seen {
    /// A step, which reported this.
    Done(Vec<Note>),
    /// The log failed at the step's record, and the site is down from then on.
    Fault,
    /// Nothing: the site was down.
    Down,
}

/// What a site took in, and what came of it.
#[derive(Debug, Drop)]
pub struct Entry {
    /// The time by the site's clock, which rises from entry to entry, and is above that of the message that was taken (Lamport, 1978).
    pub stamp: u64,
    /// What was taken in.
    pub input: Taken,
    /// How many messages the step sent.
    pub sends: u32,
    /// How many of them, the last ones, found no memory and were lost.
    pub short: u32,
    /// What came of it.
    pub seen: Seen,
}
