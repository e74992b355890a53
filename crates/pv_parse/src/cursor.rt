// The tokens of a text that are still to be read.
ghost use Rattle.std.specs.Prelude.{◌≡◌, ◌≢◌, ℕ, ◌≤◌, ◌<◌, [], ◌∷◌, map, All, IfErr, IfNone, IfOk, IfSome, OnOk};
ghost use Rattle.pv_model.specs.Tokens as text;
ghost use Rattle.pv_parse.specs.TokenView.{located_of, token_of, HasDigits};
ghost use Rattle.pv_parse.specs.Words.{is_word, TakesWord, FailsTooDeep};
ghost use Rattle.pv_parse.specs.ReadingSteps.{rest_of};

use crate::ParseError;
use crate::token::{Located, Token};
use pv_base::MAX_DEPTH;
use std::marker::Model;

/// The tokens that may be left out with what they begin.
#[derive(Clone, Copy, Debug)]
pub(crate) enum Word {
    /// `not`
    Not,
    /// `else`
    Else,
    /// `certain`
    Certain,
    /// `;`
    Next,
}

/// The tokens of a text that are still to be read. Contracts see them as a list.
#[derive(Drop)]
pub(crate) struct Cursor<'a> {
    rest: &'a [Located<'a>],
}

impl<'a> Model for Cursor<'a> {
    ghost use Rattle.pv_parse.specs.ReadingSteps.{Columned};
    ghost use Rattle.pv_parse.specs.CursorView.{left_of, have_digits};

    ghost Value = { Columned };

    ghost view = { left_of };

    ghost invariant = { have_digits };
}

impl<'a> Cursor<'a> {
    /// All tokens of a text.
    pub(crate) fn new(all: &'a [Located<'a>]) -> Cursor<'a>
        requires { All (λ located. HasDigits located.token) all.now }
        ensures { result ≡ map located_of all.now }
    {
        Cursor { rest: all }
    }

    /// The next token.
    pub(crate) fn first(&self) -> Option<Located<'a>>
        ensures none { IfNone result (self.now ≡ []) }
        ensures some { IfSome result (λ first. self.now ≡ located_of first ∷ rest_of self.now) }
        ensures digits { IfSome result (λ first. HasDigits first.token) }
    {
        self.rest.first().copied()
    }

    /// Passes the next token, which stands at this nesting.
    pub(crate) fn pass(&mut self, depth: u32) -> Result<(), ParseError>
        requires next { self.now ≢ [] }
        ensures passed { OnOk result (self.new ≡ rest_of self.old) }
        ensures shallow { OnOk result (depth ≤ MAX_DEPTH) }
        ensures error { IfErr result (λ error. (next : ℕ × text.Token) → self.old ≡ next ∷ rest_of self.old → error ≡ ParseError.TooDeep next.0) }
        ensures deep { IfErr result (λ error. MAX_DEPTH < depth) }
    {
        let [next, rest @ ..] = self.rest else {
            return Ok(());
        };
        if depth > MAX_DEPTH {
            return Err(ParseError::TooDeep(next.column));
        }
        self.rest = rest;
        Ok(())
    }

    /// Passes the word, if it is next, and answers whether it was.
    pub(crate) fn take(&mut self, word: Word, depth: u32) -> Result<bool, ParseError>
        ensures taken { IfOk result (TakesWord word depth self.old self.new) }
        ensures deep { IfErr result (FailsTooDeep word depth self.old) }
    {
        let Some(next) = self.first() else {
            return Ok(false);
        };
        if !is_word(next.token, word) {
            return Ok(false);
        }
        self.pass(depth)?;
        Ok(true)
    }
}

// Whether the token is the word.
fn is_word(token: Token, word: Word) -> bool
    ensures { result ≡ is_word word (token_of token.entry) }
{
    match word {
        Word::Not => matches!(token, Token::Not),
        Word::Else => matches!(token, Token::Else),
        Word::Certain => matches!(token, Token::Certain),
        Word::Next => matches!(token, Token::Next),
    }
}
