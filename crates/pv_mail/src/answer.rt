// What a client hears of its requests.
use pv_script::Line;

/// What a client hears.
#[derive(Debug, Drop)]
pub enum What {
    /// This line: the request's transaction has committed or is refused, or its site is down or has no number left to give.
    Line(Line),
    /// There was no memory for the request or for its line.
    NoMemory,
}

/// An answer to a request.
#[derive(Debug, Drop)]
pub struct Answer {
    /// The number of the request among its client's.
    pub number: u32,
    /// How many entries the history had when the answer was made. The entry of the step that gave it, if there is one, is counted too.
    pub seen: u64,
    /// What the client hears.
    pub what: What,
}
