// What a program replies.
use crate::Exact;

/// Why a program declines.
#[derive(Clone, Copy, Debug, PartialEq, Eq, Hash)]
pub enum Decline {
    /// What a `require` asks isn't so.
    Require,
    /// A result was outside 64 bits.
    Overflow,
    /// A divisor was 0.
    ZeroDivisor,
}

/// What a program replies.
#[derive(Clone, Copy, Debug, PartialEq, Eq, Hash)]
pub enum Reply {
    /// The value that it returned.
    Value(i64),
    /// It ended and returned no value.
    Nothing,
    /// It declined, and changed nothing.
    Declined(Decline),
}

impl Exact for Reply {
    ghost use Rattle.pv_base.specs.ReplyExact.{reply_exact};

    ghost exact = { reply_exact };
}
