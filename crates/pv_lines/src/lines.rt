// The lines of a text that count, one after another.
ghost use Rattle.std.specs.Prelude.{◌≡◌, ◌+◌, ◌≤◌, [], ◌∷◌, length, IfNone, IfSome};
ghost use Rattle.pv_lines.specs.Lines.{unread};
ghost use Rattle.pv_model.specs.Text.{lines};
ghost use Rattle.pv_script.specs.declared.lines.TheConstants.{MAX_SCHEDULE};

use pv_script::{MAX_SCHEDULE, SignificantLine, first_line, is_significant, without_return};
use std::marker::Model;

/// The lines of a text that count and are still to be read.
#[derive(Drop)]
pub struct Lines<'a> {
    /// The text that is still to be read.
    rest: &'a [u8],
    /// How many lines were passed.
    passed: u32,
}

impl<'a> Model for Lines<'a> {
    ghost use Rattle.std.specs.Prelude.{◌+◌, ◌≤◌, length};
    ghost use Rattle.pv_lines.specs.Lines.{LinesLeft};
    ghost use Rattle.pv_model.specs.Text.{significant_from, lines};
    ghost use Rattle.pv_script.specs.declared.lines.TheConstants.{MAX_SCHEDULE};

    ghost Value = { LinesLeft };

    ghost view = { λ l. record {
      numbered = significant_from (l.passed + 1) (lines l.rest.now);
      after_last = l.passed + length (lines l.rest.now) + 1;
    } };

    ghost invariant = { λ l. l.passed + length l.rest.now ≤ MAX_SCHEDULE };
}

impl<'a> Lines<'a> {
    /// All lines of a text of at most [`MAX_SCHEDULE`] bytes.
    pub fn new(text: &'a [u8]) -> Lines<'a>
        requires { length text.now ≤ MAX_SCHEDULE }
        ensures { result ≡ unread text.now }
    {
        Lines {
            rest: text,
            passed: 0,
        }
    }

    /// The next line that counts.
    pub fn next(&mut self) -> Option<SignificantLine<'a>>
        ensures none { IfNone result (self.old.numbered ≡ []) }
        ensures some { IfSome result (λ line. self.old.numbered ≡ (line.number, line.text.now) ∷ self.new.numbered) }
        ensures after_last { self.new.after_last ≡ self.old.after_last }
    {
        while !self.rest.is_empty() {
            let (line, after) = first_line(self.rest);
            self.rest = after;
            self.passed += 1;
            let text = without_return(line);
            if is_significant(text) {
                return Some(SignificantLine {
                    number: self.passed,
                    text,
                });
            }
        }
        None
    }
}
