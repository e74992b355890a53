// Reading expressions, by recursive descent: a function for each part, which reads as much as belongs to it.
ghost use Rattle.std.specs.Prelude.{◌≡◌, ◌+◌, ◌≤◌, ◌<◌, ◌∷◌, IsTrue, IfErr, IfOk};
ghost use Rattle.pv_model.specs.Grammar as grammar;
ghost use Rattle.pv_law_programs.specs.Prediction as expected;
ghost use Rattle.pv_model.specs.Syntax as model;
ghost use Rattle.pv_model.specs.Text.{number_of_digits};
ghost use Rattle.pv_model.specs.Tokens as text;
ghost use Rattle.pv_ast.specs.ExprView.{expr_of};
ghost use Rattle.pv_ast.specs.OpView.{op_of};
ghost use Rattle.pv_parse.specs.ChainView.{chain_of};
ghost use Rattle.pv_parse.specs.ReadingSteps.{is_minus, rest_of, IsNext, ReadsPhrase, FailsWith};

use crate::ParseError;
use crate::cursor::{Cursor, Word};
use crate::parser::{Chain, Parser, Punctuation};
use crate::token::{Token, number_of};
use pv_ast::{Expr, Op, Operand};
use pv_base::{MAX_DEPTH, NoMemory};
use std::alloc::Global;

impl<'a> Parser<'a> {
    /// Sides joined by the operators of the chain, grouped to the left. Any number of them is read without recursion. A
    /// disjunction is a whole expression.
    #[cycle(expression)]
    pub(crate) fn chain(
        &self,
        tokens: &mut Cursor,
        chain: Chain,
        depth: u32,
    ) -> Result<Expr, ParseError>
        requires { depth ≤ MAX_DEPTH + 1 }
        ensures read { IfOk result (λ e. ReadsPhrase self.now (grammar.chain (chain_of chain)) depth tokens.old tokens.new (expr_of e)) }
        ensures stops { IfErr result (FailsWith self.now (depth, expected.phrase (grammar.chain (chain_of chain))) tokens.old) }
    {
        let mut left = self.side(tokens, chain, depth)?;
        while let Some(op) = self.joining(tokens, chain, depth)? {
            let right = self.side(tokens, chain, depth)?;
            left = two(self.alloc, op, left, right)?;
        }
        Ok(left)
    }

    // A side of the chain.
    #[cycle(expression)]
    fn side(&self, tokens: &mut Cursor, chain: Chain, depth: u32) -> Result<Expr, ParseError>
        requires { depth ≤ MAX_DEPTH + 1 }
        ensures read { IfOk result (λ e. ReadsPhrase self.now (grammar.side (chain_of chain)) depth tokens.old tokens.new (expr_of e)) }
        ensures stops { IfErr result (FailsWith self.now (depth, expected.phrase (grammar.side (chain_of chain))) tokens.old) }
    {
        match chain {
            Chain::Disjunction => self.chain(tokens, Chain::Conjunction, depth),
            Chain::Conjunction => self.negated(tokens, depth),
            Chain::Sum => self.chain(tokens, Chain::Product, depth),
            Chain::Product => self.unary(tokens, depth),
        }
    }

    // A comparison, with any number of `not` before it.
    #[cycle(expression)]
    fn negated(&self, tokens: &mut Cursor, depth: u32) -> Result<Expr, ParseError>
        requires { depth ≤ MAX_DEPTH + 1 }
        ensures read { IfOk result (λ e. ReadsPhrase self.now grammar.negated depth tokens.old tokens.new (expr_of e)) }
        ensures stops { IfErr result (FailsWith self.now (depth, expected.phrase grammar.negated) tokens.old) }
    {
        if !tokens.take(Word::Not, depth)? {
            return self.comparison(tokens, depth);
        }
        let operand = self.negated(tokens, depth + 1)?;
        Ok(Expr::Not(Operand::new(self.alloc, operand)?))
    }

    // A sum, or two of them that are compared.
    #[cycle(expression)]
    fn comparison(&self, tokens: &mut Cursor, depth: u32) -> Result<Expr, ParseError>
        requires { depth ≤ MAX_DEPTH + 1 }
        ensures read { IfOk result (λ e. ReadsPhrase self.now grammar.comparison depth tokens.old tokens.new (expr_of e)) }
        ensures stops { IfErr result (FailsWith self.now (depth, expected.phrase grammar.comparison) tokens.old) }
    {
        let left = self.chain(tokens, Chain::Sum, depth)?;
        let Some(op) = self.comparing(tokens, depth)? else {
            return Ok(left);
        };
        let right = self.chain(tokens, Chain::Sum, depth)?;
        Ok(two(self.alloc, op, left, right)?)
    }

    // A number, an item, an expression in brackets, the lesser or the larger of two, or one of these with any number of
    // `-` before it.
    #[cycle(expression)]
    fn unary(&self, tokens: &mut Cursor, depth: u32) -> Result<Expr, ParseError>
        requires { depth ≤ MAX_DEPTH + 1 }
        ensures read { IfOk result (λ e. ReadsPhrase self.now grammar.unary depth tokens.old tokens.new (expr_of e)) }
        ensures stops { IfErr result (FailsWith self.now (depth, expected.phrase grammar.unary) tokens.old) }
    {
        let Some(next) = tokens.first() else {
            return Err(self.malformed(tokens));
        };
        let column = next.column;
        match next.token {
            Token::Number(digits) => self.number(tokens, column, digits, depth),
            Token::Name(word) => self.item(tokens, column, word, depth),
            Token::Operator(op) => self.prefixed(tokens, op, depth),
            Token::Open => self.in_brackets(tokens, depth),
            _ => Err(self.malformed(tokens)),
        }
    }

    // A number, which is next.
    fn number(
        &self,
        tokens: &mut Cursor,
        column: u32,
        digits: &[u8],
        depth: u32,
    ) -> Result<Expr, ParseError>
        requires digits { IsTrue (text.is_digits digits.now) }
        requires next { tokens.now ≡ (column, text.Token.number (number_of_digits digits.now)) ∷ rest_of tokens.now }
        ensures read { IfOk result (λ e. ReadsPhrase self.now grammar.unary depth tokens.old tokens.new (expr_of e)) }
        ensures stops { IfErr result (FailsWith self.now (depth, expected.phrase grammar.unary) tokens.old) }
    {
        let Some(number) = number_of(digits) else {
            return Err(ParseError::Malformed(column));
        };
        tokens.pass(depth)?;
        Ok(Expr::Number(number))
    }

    // An item, whose name is next.
    fn item(
        &self,
        tokens: &mut Cursor,
        column: u32,
        word: &[u8],
        depth: u32,
    ) -> Result<Expr, ParseError>
        requires next { tokens.now ≡ (column, text.Token.name word.now) ∷ rest_of tokens.now }
        ensures read { IfOk result (λ e. ReadsPhrase self.now grammar.unary depth tokens.old tokens.new (expr_of e)) }
        ensures stops { IfErr result (FailsWith self.now (depth, expected.phrase grammar.unary) tokens.old) }
    {
        let item = self.named(tokens, column, word, depth)?;
        Ok(Expr::Item(item))
    }

    // An operator before its one side or its two. An operator is next.
    #[cycle(expression)]
    fn prefixed(&self, tokens: &mut Cursor, op: Op, depth: u32) -> Result<Expr, ParseError>
        requires depth { depth ≤ MAX_DEPTH + 1 }
        requires next { IsNext self.now (text.Token.operator (op_of op)) tokens.now }
        ensures read { IfOk result (λ e. ReadsPhrase self.now grammar.unary depth tokens.old tokens.new (expr_of e)) }
        ensures stops { IfErr result (FailsWith self.now (depth, expected.phrase grammar.unary) tokens.old) }
    {
        if is_min_or_max(op) {
            return self.of_two(tokens, op, depth);
        }
        if is_minus(op) {
            return self.negative(tokens, depth);
        }
        Err(self.malformed(tokens))
    }

    // `-` before its one side. The `-` is next.
    #[cycle(expression)]
    fn negative(&self, tokens: &mut Cursor, depth: u32) -> Result<Expr, ParseError>
        requires depth { depth ≤ MAX_DEPTH + 1 }
        requires next { IsNext self.now (text.Token.operator model.sub) tokens.now }
        ensures read { IfOk result (λ e. ReadsPhrase self.now grammar.unary depth tokens.old tokens.new (expr_of e)) }
        ensures stops { IfErr result (FailsWith self.now (depth, expected.phrase grammar.unary) tokens.old) }
    {
        tokens.pass(depth)?;
        let operand = self.unary(tokens, depth + 1)?;
        Ok(Expr::Minus(Operand::new(self.alloc, operand)?))
    }

    // An expression in brackets. `(` is next.
    #[cycle(expression)]
    fn in_brackets(&self, tokens: &mut Cursor, depth: u32) -> Result<Expr, ParseError>
        requires depth { depth ≤ MAX_DEPTH + 1 }
        requires next { IsNext self.now text.Token.opens tokens.now }
        ensures read { IfOk result (λ e. ReadsPhrase self.now grammar.unary depth tokens.old tokens.new (expr_of e)) }
        ensures stops { IfErr result (FailsWith self.now (depth, expected.phrase grammar.unary) tokens.old) }
    {
        tokens.pass(depth)?;
        let inner = self.chain(tokens, Chain::Disjunction, depth + 1)?;
        self.expect(tokens, Punctuation::Close, depth)?;
        Ok(inner)
    }

    // The lesser or the larger of two. `min` or `max` is next.
    #[cycle(expression)]
    fn of_two(&self, tokens: &mut Cursor, op: Op, depth: u32) -> Result<Expr, ParseError>
        requires depth { depth ≤ MAX_DEPTH + 1 }
        requires prefix { IsTrue (grammar.is_min_or_max (op_of op)) }
        requires next { IsNext self.now (text.Token.operator (op_of op)) tokens.now }
        ensures read { IfOk result (λ e. ReadsPhrase self.now grammar.unary depth tokens.old tokens.new (expr_of e)) }
        ensures stops { IfErr result (FailsWith self.now (depth, expected.phrase grammar.unary) tokens.old) }
    {
        tokens.pass(depth)?;
        self.expect(tokens, Punctuation::Open, depth)?;
        let left = self.chain(tokens, Chain::Disjunction, depth + 1)?;
        self.expect(tokens, Punctuation::Comma, depth + 1)?;
        let right = self.chain(tokens, Chain::Disjunction, depth + 1)?;
        self.expect(tokens, Punctuation::Close, depth)?;
        Ok(two(self.alloc, op, left, right)?)
    }
}

// Whether the operator is `min` or `max`.
fn is_min_or_max(op: Op) -> bool
    ensures { result ≡ grammar.is_min_or_max (op_of op) }
{
    matches!(op, Op::Min | Op::Max)
}

// Whether the operator is `-`.
fn is_minus(op: Op) -> bool
    ensures { result ≡ is_minus (op_of op) }
{
    matches!(op, Op::Sub)
}

// An operator between two sides.
fn two(alloc: Global, op: Op, left: Expr, right: Expr) -> Result<Expr, NoMemory>
    ensures { IfOk result (λ e. expr_of e ≡ model.two (op_of op) (expr_of left) (expr_of right)) }
{
    Ok(Expr::Two {
        op,
        left: Operand::new(alloc, left)?,
        right: Operand::new(alloc, right)?,
    })
}
