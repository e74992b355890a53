// The lines of a trace's text, one after another.
ghost use Rattle.std.specs.Prelude.{◌≡◌, ◌≤◌, [], ◌∷◌, ℕ, List, length, IfNone, IfSome};
ghost use Rattle.pv_audit.specs.Entries as model;
ghost use Rattle.pv_audit.specs.Entries.{plain, printed_first};
ghost use Rattle.pv_audit.specs.EntriesLeft.{unread};
ghost use Rattle.pv_audit.specs.EntryView.{line_in, numbered_of};
ghost use Rattle.pv_script.specs.declared.lines.TheConstants.{MAX_SCHEDULE};

use crate::words::split_byte;
use pv_script::{MAX_SCHEDULE, first_line, is_significant, without_return};
use std::marker::Model;

/// A line with its number.
#[derive(Clone, Copy, Debug)]
pub struct NumberedLine<'a> {
    /// The place among all lines of the text, from 1.
    pub number: u32,
    /// The bytes, without the line's end, and without the prompt.
    pub text: &'a [u8],
}

/// A line of a trace that counts.
#[derive(Clone, Copy, Debug)]
pub enum Entry<'a> {
    /// A line of the schedule.
    Said(NumberedLine<'a>),
    /// A line that was printed.
    Printed(NumberedLine<'a>),
}

/// The entries of a text that are still to be read.
#[derive(Drop)]
pub struct Entries<'a> {
    /// The text that is still to be read.
    rest: &'a [u8],
    /// How many lines were passed.
    passed: u32,
}

impl<'a> Model for Entries<'a> {
    ghost use Rattle.std.specs.Prelude.{◌+◌, ◌≤◌, length};
    ghost use Rattle.pv_audit.specs.Entries.{entries_from};
    ghost use Rattle.pv_audit.specs.EntriesLeft.{EntriesLeft};
    ghost use Rattle.pv_model.specs.Text.{lines};
    ghost use Rattle.pv_script.specs.declared.lines.TheConstants.{MAX_SCHEDULE};

    ghost Value = { EntriesLeft };

    ghost view = { λ entries. record {
      numbered = entries_from (entries.passed + 1) (lines entries.rest.now);
      after_last = entries.passed + length (lines entries.rest.now) + 1;
    } };

    ghost invariant = { λ entries. entries.passed + length entries.rest.now ≤ MAX_SCHEDULE };
}

impl<'a> Entries<'a> {
    /// All entries of a text.
    pub fn new(text: &'a [u8]) -> Entries<'a>
        requires { length text.now ≤ MAX_SCHEDULE }
        ensures { result ≡ unread text.now }
    {
        Entries {
            rest: text,
            passed: 0,
        }
    }

    /// The next entry that counts.
    pub fn next(&mut self) -> Option<Entry<'a>>
        ensures none { IfNone result (self.old.numbered ≡ []) }
        ensures some { IfSome result (λ entry. self.old.numbered ≡ numbered_of entry ∷ self.new.numbered) }
        ensures short { IfSome result (λ entry. length (line_in entry) ≤ MAX_SCHEDULE) }
        ensures after_last { self.new.after_last ≡ self.old.after_last }
    {
        while !self.rest.is_empty() {
            let (line, after) = first_line(self.rest);
            self.rest = after;
            self.passed += 1;
            let entry = entry_of(self.passed, without_return(line));
            if counts(entry) {
                return Some(entry);
            }
        }
        None
    }

    /// The next entry where it is a printed line. Else nothing is read.
    pub fn next_printed(&mut self) -> Option<NumberedLine<'a>>
        ensures none { IfNone result ((printed_first (plain self.old.numbered) ≡ []) × (self.new ≡ self.old)) }
        ensures some { IfSome result (λ line. self.old.numbered ≡ (line.number, model.printed line.text.now) ∷ self.new.numbered) }
        ensures short { IfSome result (λ line. length line.text.now ≤ MAX_SCHEDULE) }
        ensures after_last { self.new.after_last ≡ self.old.after_last }
    {
        let mut ahead = Entries {
            rest: self.rest,
            passed: self.passed,
        };
        match ahead.next() {
            Some(Entry::Printed(line)) => {
                *self = ahead;
                Some(line)
            },
            Some(Entry::Said(_)) => None,
            None => None,
        }
    }

    /// The number after the last line of the text, however many of its lines are read.
    pub fn after_last(&self) -> u32
        ensures { result ≡ self.now.after_last }
    {
        let mut rest = self.rest;
        let mut passed = self.passed;
        while !rest.is_empty() {
            let (_, after) = first_line(rest);
            rest = after;
            passed += 1;
        }
        passed + 1
    }
}

// What a line is.
fn entry_of(number: u32, line: &[u8]) -> Entry
    ensures { numbered_of result ≡ (number, model.entry_of line.now) }
{
    match behind_prompt(line) {
        Some(text) => Entry::Said(NumberedLine { number, text }),
        None => Entry::Printed(NumberedLine { number, text: line }),
    }
}

// What stands behind the prompt, where the line begins with it.
fn behind_prompt(line: &[u8]) -> Option<&[u8]>
    ensures some { IfSome result (λ text. line.now ≡ 62 ∷ (32 ∷ text.now)) }
    ensures none { IfNone result ((text : List ℕ) → line.now ≡ 62 ∷ (32 ∷ text) → ⊥) }
{
    let (first, rest) = split_byte(line)?;
    if first != b'>' {
        return None;
    }
    let (second, text) = split_byte(rest)?;
    if second != b' ' {
        return None;
    }
    Some(text)
}

// Whether the entry counts.
fn counts(entry: Entry) -> bool
    ensures { result ≡ model.counts (numbered_of entry.entry).1 }
{
    match entry {
        Entry::Said(line) => is_significant(line.text),
        Entry::Printed(_) => true,
    }
}
