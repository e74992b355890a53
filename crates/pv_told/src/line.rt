// The line of what a client wants.
use pv_script::Line;
use pv_shelf::Peek;

/// What a client hears of a request, or of an item that it looks at.
#[derive(Debug, Drop)]
pub enum ClientWhat {
    /// The history's line for the request, or for the transaction that it began; or that the site has met a fault since.
    Line(Line),
    /// What the client found of an item that it looked at.
    Peek(Peek),
    /// There was no memory for what an item shows; or the history says nothing of the request, and the box isn't worn. So it is where there was no memory for the request, or for what would have ended its transaction; that it
    /// comes of nothing else no clause says.
    NoMemory,
    /// The box of the site takes nothing any more.
    Worn,
}

/// What a client hears of one thing that it wants.
#[derive(Debug, Drop)]
pub struct ClientLine {
    /// Its number among all that the client wants, from 0.
    pub request: u32,
    /// What the client hears.
    pub what: ClientWhat,
}
