// What programs are read with, token by token.
ghost use Rattle.std.specs.Prelude.{◌≡◌, ℕ, ◌<◌, ◌≤◌, Err, Some, None, IsTrue, IfErr, IfOk, IfNone, IfSome, OnOk, ◌∷◌};
ghost use Rattle.pv_model.specs.Grammar.{joins, compares};
ghost use Rattle.pv_law_programs.specs.Prediction.{more, comparing, punctuation, is_punctuation};
ghost use Rattle.pv_model.specs.ProgramText.{item_in};
ghost use Rattle.pv_model.specs.Tokens as model;
ghost use Rattle.pv_ast.specs.OpView.{op_of};
ghost use Rattle.pv_parse.specs.ChainView.{chain_of, punctuation_of, token_of_punctuation};
ghost use Rattle.pv_parse.specs.TokenView.{token_of};
ghost use Rattle.pv_parse.specs.ReadingSteps.{next_column, has_no_operator, rest_of, IsNext, FailsWith, TakesOperator, PassesPunctuation};

use crate::ParseError;
use crate::cursor::Cursor;
use crate::token::Token;
use pv_ast::Op;
use pv_base::{Catalog, ItemId, MAX_DEPTH};
use std::alloc::Global;
use std::marker::Model;

/// The chains of sides, from the one that binds the least.
#[derive(Clone, Copy, Debug)]
pub(crate) enum Chain {
    /// Sides joined by `or`.
    Disjunction,
    /// Sides joined by `and`.
    Conjunction,
    /// Sides joined by `+` and `-`.
    Sum,
    /// Sides joined by `*`, `/` and `%`.
    Product,
}

/// The punctuation that has to come after other tokens.
#[derive(Clone, Copy, Debug)]
pub(crate) enum Punctuation {
    /// `:=`
    Becomes,
    /// `(`
    Open,
    /// `)`
    Close,
    /// `{`
    OpenBody,
    /// `}`
    CloseBody,
    /// `,`
    Comma,
}

/// What a text is read with.
#[derive(Drop)]
pub(crate) struct Parser<'a> {
    /// Where the memory for the program comes from.
    pub(crate) alloc: Global,
    /// The items that the program may name.
    pub(crate) catalog: &'a Catalog,
    /// The column after the text.
    pub(crate) after_text: u32,
}

impl<'a> Model for Parser<'a> {
    ghost use Rattle.pv_parse.specs.ReadingSteps.{Context};
    ghost use Rattle.pv_parse.specs.ParserView.{source_of};

    ghost Value = { Context };

    ghost view = { source_of };
}

impl<'a> Parser<'a> {
    /// The fault where no token that may come is next.
    pub(crate) fn malformed(&self, tokens: &Cursor) -> ParseError
        ensures { result ≡ ParseError.Malformed (next_column self.now tokens.now) }
    {
        match tokens.first() {
            Some(next) => ParseError::Malformed(next.column),
            None => ParseError::Malformed(self.after_text),
        }
    }

    /// Passes punctuation that has to come.
    pub(crate) fn expect(
        &self,
        tokens: &mut Cursor,
        expected: Punctuation,
        depth: u32,
    ) -> Result<(), ParseError>
        ensures passed { OnOk result (PassesPunctuation self.now (punctuation_of expected) (token_of_punctuation expected) depth tokens.old tokens.new) }
        ensures stops { IfErr result (FailsWith self.now (depth, punctuation (punctuation_of expected)) tokens.old) }
    {
        let Some(next) = tokens.first() else {
            return Err(self.malformed(tokens));
        };
        if !is_punctuation(next.token, expected) {
            return Err(self.malformed(tokens));
        }
        tokens.pass(depth)?;
        Ok(())
    }

    /// Passes an operator that joins the sides of the chain, if one is next.
    pub(crate) fn joining(
        &self,
        tokens: &mut Cursor,
        chain: Chain,
        depth: u32,
    ) -> Result<Option<Op>, ParseError>
        ensures taken { IfOk result (TakesOperator self.now (more (chain_of chain)) (joins (chain_of chain)) depth tokens.old tokens.new) }
        ensures stops { IfErr result (FailsWith self.now (depth, more (chain_of chain)) tokens.old) }
    {
        let Some(op) = self.next_operator(tokens) else {
            return Ok(None);
        };
        if !joins(chain, op) {
            return Ok(None);
        }
        tokens.pass(depth)?;
        Ok(Some(op))
    }

    /// Passes an operator that compares, if one is next.
    pub(crate) fn comparing(
        &self,
        tokens: &mut Cursor,
        depth: u32,
    ) -> Result<Option<Op>, ParseError>
        ensures taken { IfOk result (TakesOperator self.now comparing compares depth tokens.old tokens.new) }
        ensures stops { IfErr result (FailsWith self.now (depth, comparing) tokens.old) }
    {
        let Some(op) = self.next_operator(tokens) else {
            return Ok(None);
        };
        if !compares(op) {
            return Ok(None);
        }
        tokens.pass(depth)?;
        Ok(Some(op))
    }

    // The operator that is next, if one is.
    fn next_operator(&self, tokens: &Cursor) -> Option<Op>
        ensures some { IfSome result (λ op. IsNext self.now (model.Token.operator (op_of op)) tokens.now) }
        ensures none { IfNone result (IsTrue (has_no_operator tokens.now)) }
    {
        match tokens.first()?.token {
            Token::Operator(op) => Some(op),
            _ => None,
        }
    }

    /// Passes a name, which is next at this column, and answers its item.
    pub(crate) fn named(
        &self,
        tokens: &mut Cursor,
        column: u32,
        word: &[u8],
        depth: u32,
    ) -> Result<ItemId, ParseError>
        requires next { tokens.now ≡ (column, model.Token.name word.now) ∷ rest_of tokens.now }
        ensures item { IfOk result (λ item. item_in self.now.catalog word.now ≡ Some item.0) }
        ensures passed { OnOk result (tokens.new ≡ rest_of tokens.old) }
        ensures shallow { OnOk result (depth ≤ MAX_DEPTH) }
        ensures unknown { IfErr result (λ error. item_in self.now.catalog word.now ≡ None → error ≡ ParseError.UnknownName column) }
        ensures deep { IfErr result (λ error. (item : ℕ) → item_in self.now.catalog word.now ≡ Some item →
            (error ≡ ParseError.TooDeep column) × (MAX_DEPTH < depth)) }
    {
        let Some(item) = self.catalog.find(word) else {
            return Err(ParseError::UnknownName(column));
        };
        tokens.pass(depth)?;
        Ok(item)
    }
}

// Whether the operator joins the sides of the chain.
fn joins(chain: Chain, op: Op) -> bool
    ensures { result ≡ joins (chain_of chain) (op_of op) }
{
    match chain {
        Chain::Disjunction => matches!(op, Op::Or),
        Chain::Conjunction => matches!(op, Op::And),
        Chain::Sum => matches!(op, Op::Plus | Op::Sub),
        Chain::Product => matches!(op, Op::Times | Op::Over | Op::Rest),
    }
}

// Whether the operator compares.
fn compares(op: Op) -> bool
    ensures { result ≡ compares (op_of op) }
{
    matches!(
        op,
        Op::Equal | Op::Unequal | Op::Less | Op::AtMost | Op::Greater | Op::AtLeast
    )
}

// Whether the token is this punctuation.
fn is_punctuation(token: Token, punctuation: Punctuation) -> bool
    ensures is_it { result ≡ is_punctuation (punctuation_of punctuation) (token_of token.entry) }
{
    match punctuation {
        Punctuation::Becomes => matches!(token, Token::Becomes),
        Punctuation::Open => matches!(token, Token::Open),
        Punctuation::Close => matches!(token, Token::Close),
        Punctuation::OpenBody => matches!(token, Token::OpenBody),
        Punctuation::CloseBody => matches!(token, Token::CloseBody),
        Punctuation::Comma => matches!(token, Token::Comma),
    }
}
