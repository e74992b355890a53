// The words that printed lines begin with.
ghost use Rattle.std.specs.Prelude.{◌≡◌, IfNone, IfSome};
ghost use Rattle.pv_audit.specs.FirstWords.{first_word};
ghost use Rattle.pv_audit.specs.declared.first.First as code_first;

use crate::parts::beside;

/// A word that a printed line begins with.
#[derive(Clone, Copy, Debug, PartialEq, Eq)]
pub enum First {
    /// `txn`
    Txn,
    /// `commit`
    Commit,
    /// `refuse`
    Refuse,
    /// `full`
    Full,
    /// `spent`
    Spent,
    /// `down`
    Down,
    /// `up`
    Up,
    /// `stopped`
    Stopped,
    /// `fault`
    Fault,
    /// `started`
    Started,
    /// `no`
    No,
    /// `sent`
    Sent,
    /// `order`
    Order,
    /// `committed`
    Committed,
    /// `open`
    Open,
    /// `item`
    Item,
    /// `end`
    End,
    /// `total`
    Total,
}

// Each of these words with what it is.
const FIRST: [(&[u8], First); 18] = [
    (b"txn", First::Txn),
    (b"commit", First::Commit),
    (b"refuse", First::Refuse),
    (b"full", First::Full),
    (b"spent", First::Spent),
    (b"down", First::Down),
    (b"up", First::Up),
    (b"stopped", First::Stopped),
    (b"fault", First::Fault),
    (b"started", First::Started),
    (b"no", First::No),
    (b"sent", First::Sent),
    (b"order", First::Order),
    (b"committed", First::Committed),
    (b"open", First::Open),
    (b"item", First::Item),
    (b"end", First::End),
    (b"total", First::Total),
];

/// The first word that this one is.
pub fn first_of(word: &[u8]) -> Option<First>
    ensures some { IfSome result (λ first. word.now ≡ first_word first) }
    ensures none { IfNone result ((first : code_first.First) → word.now ≡ first_word first → ⊥) }
{
    beside(word, &FIRST)
}
