// The significant lines of a text, one after another.
ghost use Rattle.std.specs.Prelude.{◌≡◌, ◌+◌, ◌<◌, ◌≤◌, [], ◌∷◌, length, IfNone, IfSome};
ghost use Rattle.std.specs.Str.Lines.{strip_carriage_return};
ghost use Rattle.pv_model.specs.Text.{lines, is_significant};

use memchr::memchr;
use pv_base::is_blank;
use std::marker::Model;

/// The most bytes that the text of a script may have, so that the number after its last line is one of 32 bits.
pub const MAX_SCHEDULE: usize = 4_294_967_294;

/// A line that counts.
#[derive(Clone, Copy, Debug)]
pub struct SignificantLine<'a> {
    /// The place among all lines of the text, from 1.
    pub number: u32,
    /// The bytes, without the line's end.
    pub text: &'a [u8],
}

/// The significant lines of a text that are still to be read.
#[derive(Drop)]
pub struct Lines<'a> {
    /// The text that is still to be read.
    rest: &'a [u8],
    /// How many lines were passed, also those that stand before the text.
    passed: u32,
}

impl<'a> Model for Lines<'a> {
    ghost use Rattle.std.specs.Prelude.{◌+◌, ◌≤◌, length};
    ghost use Rattle.pv_model.specs.Text.{significant_from, lines};
    ghost use Rattle.pv_script.specs.LinesLeft.{LinesLeft};
    ghost use Rattle.pv_script.specs.declared.lines.TheConstants.{MAX_SCHEDULE};

    ghost Value = { LinesLeft };

    ghost view = { λ l. record {
      numbered = significant_from (l.passed + 1) (lines l.rest.now);
      after_last = l.passed + length (lines l.rest.now) + 1;
    } };

    ghost invariant = { λ l. l.passed + length l.rest.now ≤ MAX_SCHEDULE };
}

impl<'a> Lines<'a> {
    ghost use Rattle.pv_model.specs.Text.{numbered, lines, significant_from};

    /// All lines of a text.
    pub fn new(text: &'a [u8]) -> Lines<'a>
        requires { length text.now ≤ MAX_SCHEDULE }
        ensures { result ≡ record { numbered = numbered text.now; after_last = length (lines text.now) + 1 } }
    {
        Lines {
            rest: text,
            passed: 0,
        }
    }

    /// All lines of a text that stands behind so many other lines.
    pub fn behind(text: &'a [u8], passed: u32) -> Lines<'a>
        requires { passed + length text.now ≤ MAX_SCHEDULE }
        ensures { result ≡ record { numbered = significant_from (passed + 1) (lines text.now); after_last = passed + length (lines text.now) + 1 } }
    {
        Lines { rest: text, passed }
    }

    /// The next line that counts.
    pub fn next(&mut self) -> Option<SignificantLine<'a>>
        ensures none { IfNone result (self.old.numbered ≡ []) }
        ensures some { IfSome result (λ line. self.old.numbered ≡ (line.number, line.text.now) ∷ self.new.numbered) }
        ensures after_last { self.new.after_last ≡ self.old.after_last }
    {
        while !self.rest.is_empty() {
            let (line, after) = first_line(self.rest);
            self.rest = after;
            self.passed += 1;
            let text = without_return(line);
            if is_significant(text) {
                return Some(SignificantLine {
                    number: self.passed,
                    text,
                });
            }
        }
        None
    }

    /// The number after the last line of the text, however many of its lines are read.
    pub fn after_last(&self) -> u32
        ensures { result ≡ self.now.after_last }
    {
        let mut rest = self.rest;
        let mut passed = self.passed;
        while !rest.is_empty() {
            let (_, after) = first_line(rest);
            rest = after;
            passed += 1;
        }
        passed + 1
    }
}

/// The number after that of the text's last line.
pub fn line_after(text: &[u8]) -> u32
    requires { length text.now ≤ MAX_SCHEDULE }
    ensures { result ≡ length (lines text.now) + 1 }
{
    Lines::new(text).after_last()
}

/// The first line, with the carriage return that may end it, and what stands after its line feed.
pub fn first_line(rest: &[u8]) -> (&[u8], &[u8])
    requires { 0 < length rest.now }
    ensures first { lines rest.now ≡ strip_carriage_return result.0.now ∷ lines result.1.now }
    ensures shorter { length result.1.now < length rest.now }
    ensures within { length result.0.now ≤ length rest.now }
{
    let Some(end) = memchr(b'\n', rest) else {
        return rest.split_at(rest.len());
    };
    let (line, tail) = rest.split_at(end);
    let (_, after) = tail.split_at(1);
    (line, after)
}

/// The line without a carriage return at its end.
pub fn without_return(line: &[u8]) -> &[u8]
    ensures line { result.now ≡ strip_carriage_return line.now }
    ensures within { length result.now ≤ length line.now }
{
    match line {
        [front @ .., b'\r'] => front,
        _ => line,
    }
}

/// Whether the line has more than blanks, and is no comment.
pub fn is_significant(line: &[u8]) -> bool
    ensures { result ≡ is_significant line.now }
{
    line.iter()
        .copied()
        .find(|b| !is_blank(*b))
        .is_some_and(|b| b != b'#')
}
