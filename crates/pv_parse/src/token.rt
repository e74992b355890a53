// The tokens of a program text, each with its column.
ghost use Rattle.std.specs.Prelude.{◌≡◌, ◌^◌, ◌*◌, ◌<◌, ◌≤◌, ℤ, pos, length, map, All, IsTrue, IfOk, IfNone, IfSome};
ghost use Rattle.pv_model.specs.Text.{number_of_digits};
ghost use Rattle.pv_model.specs.Tokens.{HasTokens, is_digits};
ghost use Rattle.pv_parse.specs.TokenView.{located_of, HasDigits};

use crate::lexer::first_token;
use pv_ast::Op;
use pv_base::{MAX_LINE, NoMemory, is_blank};
use std::alloc::Global;
use std::str;

/// A token of a program text.
#[derive(Clone, Copy, Debug, PartialEq, Eq)]
pub(crate) enum Token<'a> {
    /// A name.
    Name(&'a [u8]),
    /// A number's digits, which may stand for more than 64 bits hold.
    Number(&'a [u8]),
    /// An operator between two sides; `-` also stands before one.
    Operator(Op),
    /// `not`
    Not,
    /// `if`
    If,
    /// `else`
    Else,
    /// `require`
    Require,
    /// `return`
    Return,
    /// `:=`
    Becomes,
    /// `(`
    Open,
    /// `)`
    Close,
    /// `{`
    OpenBody,
    /// `}`
    CloseBody,
    /// `;`
    Next,
    /// `,`
    Comma,
    /// `certain`
    Certain,
    /// A byte that begins no token.
    Stray(u8),
}

/// A token with the column of its first byte, from 1.
#[derive(Clone, Copy, Debug, PartialEq, Eq)]
pub(crate) struct Located<'a> {
    /// The column.
    pub(crate) column: u32,
    /// The token.
    pub(crate) token: Token<'a>,
}

/// The tokens of a text. Its one error is to be out of memory.
pub(crate) fn tokens_of<'a>(alloc: Global, text: &'a [u8]) -> Result<Vec<Located<'a>>, NoMemory>
    requires short { length text.now ≤ MAX_LINE }
    ensures tokens { IfOk result (λ found. HasTokens text.now (map located_of found.items)) }
    ensures digits { IfOk result (λ found. All (λ located. HasDigits located.token) found.items) }
{
    // Most tokens have a blank behind them, so there is mostly room for all.
    let mut found = Vec::with_capacity(alloc, text.len() / 2 + 1)?;
    let mut column = 1;
    let mut rest = text;
    while let [first, ..] = rest {
        if is_blank(*first) {
            let (_, later) = rest.split_at(1);
            rest = later;
            column += 1;
            continue;
        }
        let (token, size) = first_token(rest);
        found.push(Located { column, token })?;
        let (_, later) = rest.split_at(size);
        rest = later;
        column += size as u32;
    }
    Ok(found)
}

/// The number below 2^63 that digits stand for.
pub(crate) fn number_of(digits: &[u8]) -> Option<i64>
    requires digits { IsTrue (is_digits digits.now) }
    ensures number { IfSome result (λ n. n ≡ pos (number_of_digits digits.now) × number_of_digits digits.now < 2 ^ 63) }
    ensures none { IfNone result (2 ^ 63 ≤ number_of_digits digits.now) }
{
    str::from_utf8(digits).ok()?.parse().ok()
}
