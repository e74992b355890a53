// Reading a program from its text.
ghost use Rattle.std.specs.Prelude.{◌≡◌, ◌≢◌, ◌≤◌, Err, Some, length, IfErr, IfOk, IfSome};
ghost use Rattle.pv_base.specs.Answer.{Answers};
ghost use Rattle.pv_model.specs.ProgramText.{IsProgramText, IsRefused};
ghost use Rattle.pv_parse.specs.Refusals.{refusal_of, IsWholeProgram, IsFirstError};

use crate::ParseError;
use crate::cursor::Cursor;
use crate::parser::Parser;
use crate::token::tokens_of;
use pv_ast::Program;
use pv_base::{Catalog, MAX_LINE};
use std::alloc::Global;

/// Reads a program over the items of a catalog from its text.
///
/// It is refused with the first of these that holds:
///
/// 1. `TooLarge`: the text has more than [`MAX_LINE`] bytes. The error says how many.
/// 2. The leftmost fault, and at one column the first of these. `Malformed`: the token at the column can't follow what
///    stands before it or is a number of 2 to the 63rd power or more, or the text ends too early. `UnknownName`: the name at the column is no item's. `TooDeep`: the
///    token at the column is nested deeper than [`MAX_DEPTH`](pv_base::MAX_DEPTH).
///
/// `NoMemory`, out of memory, may come before a fault of the second kind is found.
///
/// Takes time linear in the text, besides looking up each name. Recursion goes as deep as tokens nest, at most one
/// level deeper than [`MAX_DEPTH`](pv_base::MAX_DEPTH) below the outermost; chains and rows of statements are read in loops.
pub fn parse(alloc: Global, text: &[u8], catalog: &Catalog) -> Result<Program, ParseError>
    ensures answer { Answers (IsProgramText catalog.now text.now) (IsRefused catalog.now text.now) (λ program. program) refusal_of result }
    ensures memory { result ≡ Err ParseError.NoMemory → length text.now ≤ MAX_LINE }
{
    if text.len() > MAX_LINE {
        return Err(ParseError::TooLarge(text.len() as u64));
    }
    let all = tokens_of(alloc, text)?;
    let parser = Parser {
        alloc,
        catalog,
        after_text: text.len() as u32 + 1,
    };
    let program = parser.all(&mut Cursor::new(&all))?;
    Ok(program)
}

impl<'a> Parser<'a> {
    // The program that all of the tokens are.
    fn all(&self, tokens: &mut Cursor) -> Result<Program, ParseError>
        ensures read { IfOk result (IsWholeProgram self.now tokens.old) }
        ensures faults { IfErr result (IsFirstError self.now tokens.old) }
    {
        let program = self.program(tokens, 0)?;
        if let Some(next) = tokens.first() {
            return Err(ParseError::Malformed(next.column));
        }
        Ok(program)
    }
}
