// What a coordinator waits for.
use pv_base::Reply;
use pv_tree::Poly;

/// What a coordinator waits for.
#[derive(Debug, Drop)]
pub(crate) enum Stage {
    /// It has asked the participants for their locks.
    Locking,
    /// It has asked them for their votes. It holds what the program replies.
    Voting(Poly<Reply>),
}
