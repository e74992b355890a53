// Reading statements and programs, by recursive descent over the programs within them.
ghost use Rattle.std.specs.Prelude.{◌≡◌, ◌+◌, ◌≤◌, ◌∷◌, IfErr, IfOk};
ghost use Rattle.pv_law_programs.specs.Prediction as expected;
ghost use Rattle.pv_model.specs.Tokens as text;
ghost use Rattle.pv_parse.specs.ReadingSteps.{rest_of, IsNext, FailsWith};
ghost use Rattle.pv_parse.specs.ReadingPrograms.{PassesName, ReadsBody, ReadsRequired, ReadsStmt, ReadsWhole, StopsBraced};

use crate::ParseError;
use crate::cursor::{Cursor, Word};
use crate::parser::{Chain, Parser, Punctuation};
use crate::token::Token;
use pv_ast::{Program, Stmt};
use pv_base::{ItemId, MAX_DEPTH};

impl<'a> Parser<'a> {
    /// A program, which has a statement at least. Any number of them is read without recursion.
    #[cycle(program)]
    pub(crate) fn program(&self, tokens: &mut Cursor, depth: u32) -> Result<Program, ParseError>
        requires { depth ≤ MAX_DEPTH + 1 }
        ensures read { IfOk result (ReadsWhole self.now depth tokens.old tokens.new) }
        ensures stops { IfErr result (FailsWith self.now (depth, expected.program) tokens.old) }
    {
        let mut stmts = Vec::new(self.alloc);
        loop {
            let stmt = self.stmt(tokens, depth)?;
            stmts.push(stmt)?;
            if !tokens.take(Word::Next, depth)? {
                return Ok(Program { stmts });
            }
        }
    }

    // A statement.
    #[cycle(program)]
    fn stmt(&self, tokens: &mut Cursor, depth: u32) -> Result<Stmt, ParseError>
        requires { depth ≤ MAX_DEPTH + 1 }
        ensures read { IfOk result (ReadsStmt self.now depth tokens.old tokens.new) }
        ensures stops { IfErr result (FailsWith self.now (depth, expected.program) tokens.old) }
    {
        let Some(next) = tokens.first() else {
            return Err(self.malformed(tokens));
        };
        let column = next.column;
        match next.token {
            Token::Name(word) => self.assign_stmt(tokens, column, word, depth),
            Token::Require => self.require_stmt(tokens, depth),
            Token::Return => self.return_stmt(tokens, depth),
            Token::If => self.if_stmt(tokens, depth),
            _ => Err(self.malformed(tokens)),
        }
    }

    // `ITEM := VALUE`. The item's name is next.
    fn assign_stmt(
        &self,
        tokens: &mut Cursor,
        column: u32,
        word: &[u8],
        depth: u32,
    ) -> Result<Stmt, ParseError>
        requires depth { depth ≤ MAX_DEPTH + 1 }
        requires next { tokens.now ≡ (column, text.Token.name word.now) ∷ rest_of tokens.now }
        ensures read { IfOk result (ReadsStmt self.now depth tokens.old tokens.new) }
        ensures stops { IfErr result (FailsWith self.now (depth, expected.program) tokens.old) }
    {
        let item = self.named(tokens, column, word, depth)?;
        self.expect(tokens, Punctuation::Becomes, depth)?;
        let value = self.chain(tokens, Chain::Disjunction, depth)?;
        Ok(Stmt::Assign { item, value })
    }

    // `require TEST` or `require certain ITEM`. The first word is next.
    fn require_stmt(&self, tokens: &mut Cursor, depth: u32) -> Result<Stmt, ParseError>
        requires depth { depth ≤ MAX_DEPTH + 1 }
        requires next { IsNext self.now text.Token.requires tokens.now }
        ensures read { IfOk result (ReadsStmt self.now depth tokens.old tokens.new) }
        ensures stops { IfErr result (FailsWith self.now (depth, expected.program) tokens.old) }
    {
        tokens.pass(depth)?;
        self.requirement(tokens, depth)
    }

    // What stands behind `require`.
    fn requirement(&self, tokens: &mut Cursor, depth: u32) -> Result<Stmt, ParseError>
        requires { depth ≤ MAX_DEPTH }
        ensures read { IfOk result (ReadsRequired self.now depth tokens.old tokens.new) }
        ensures stops { IfErr result (FailsWith self.now (depth, expected.requirement) tokens.old) }
    {
        if tokens.take(Word::Certain, depth)? {
            let item = self.item_name(tokens, depth)?;
            return Ok(Stmt::Certain(item));
        }
        let test = self.chain(tokens, Chain::Disjunction, depth)?;
        Ok(Stmt::Require(test))
    }

    // The name of an item, which has to come.
    fn item_name(&self, tokens: &mut Cursor, depth: u32) -> Result<ItemId, ParseError>
        requires { depth ≤ MAX_DEPTH }
        ensures read { IfOk result (λ item. PassesName self.now depth tokens.old tokens.new item.0) }
        ensures stops { IfErr result (FailsWith self.now (depth, expected.item_name) tokens.old) }
    {
        let Some(next) = tokens.first() else {
            return Err(self.malformed(tokens));
        };
        match next.token {
            Token::Name(word) => self.named_item(tokens, next.column, word, depth),
            _ => Err(self.malformed(tokens)),
        }
    }

    // The same. The item's name is next.
    fn named_item(
        &self,
        tokens: &mut Cursor,
        column: u32,
        word: &[u8],
        depth: u32,
    ) -> Result<ItemId, ParseError>
        requires { tokens.now ≡ (column, text.Token.name word.now) ∷ rest_of tokens.now }
        ensures read { IfOk result (λ item. PassesName self.now depth tokens.old tokens.new item.0) }
        ensures stops { IfErr result (FailsWith self.now (depth, expected.item_name) tokens.old) }
    {
        let item = self.named(tokens, column, word, depth)?;
        Ok(item)
    }

    // `return VALUE`. The word is next.
    fn return_stmt(&self, tokens: &mut Cursor, depth: u32) -> Result<Stmt, ParseError>
        requires depth { depth ≤ MAX_DEPTH + 1 }
        requires next { IsNext self.now text.Token.returns tokens.now }
        ensures read { IfOk result (ReadsStmt self.now depth tokens.old tokens.new) }
        ensures stops { IfErr result (FailsWith self.now (depth, expected.program) tokens.old) }
    {
        tokens.pass(depth)?;
        let value = self.chain(tokens, Chain::Disjunction, depth)?;
        Ok(Stmt::Return(value))
    }

    // `if TEST { BODY }`, perhaps with `else { OTHER }`. The first word is next.
    #[cycle(program)]
    fn if_stmt(&self, tokens: &mut Cursor, depth: u32) -> Result<Stmt, ParseError>
        requires depth { depth ≤ MAX_DEPTH + 1 }
        requires next { IsNext self.now text.Token.asks tokens.now }
        ensures read { IfOk result (ReadsStmt self.now depth tokens.old tokens.new) }
        ensures stops { IfErr result (FailsWith self.now (depth, expected.program) tokens.old) }
    {
        tokens.pass(depth)?;
        let test = self.chain(tokens, Chain::Disjunction, depth)?;
        let body = self.body(tokens, depth)?;
        if !tokens.take(Word::Else, depth)? {
            return Ok(Stmt::If {
                test,
                body,
                other: None,
            });
        }
        let other = self.body(tokens, depth)?;
        Ok(Stmt::If {
            test,
            body,
            other: Some(other),
        })
    }

    // A program in braces.
    #[cycle(program)]
    fn body(&self, tokens: &mut Cursor, depth: u32) -> Result<Program, ParseError>
        requires { depth ≤ MAX_DEPTH }
        ensures read { IfOk result (ReadsBody self.now depth tokens.old tokens.new) }
        ensures stops { IfErr result (StopsBraced self.now depth tokens.old) }
    {
        self.expect(tokens, Punctuation::OpenBody, depth)?;
        let body = self.program(tokens, depth + 1)?;
        self.expect(tokens, Punctuation::CloseBody, depth)?;
        Ok(body)
    }
}
