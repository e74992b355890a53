// Why a call on a slot was refused.

/// Why a call on a slot was refused. The slot is then as it was, but for what the engine says of its own refusals.
#[derive(Clone, Copy, Debug, PartialEq, Eq)]
pub enum Refused<E> {
    /// The slot is closed.
    Closed,
    /// The slot is open already.
    InUse,
    /// The engine refused it.
    Engine(E),
}
