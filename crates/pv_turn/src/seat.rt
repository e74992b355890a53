// The seats of a turn.
ghost use Rattle.std.specs.Prelude.{◌≡◌};

use crate::view::View;

/// By a seat a thread takes the turn. It has no bytes, and may go to a thread of its own.
///
/// Contracts see the entries that it has seen (`seen`), and whether it holds the turn (`Holds`) or rests (`Rests`).
#[derive(Drop)]
pub struct Seat<V, E> {
    pub(crate) token: atomic_table::Seat<Option<V>, View<E>>,
    ghost one_part: { token.me.0.parts ≡ 1 },
}
