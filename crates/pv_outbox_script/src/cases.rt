// The cases that the words of a condition spell, word by word.
ghost use Rattle.std.specs.Prelude.{◌≡◌, ◌+◌, ◌<◌, ◌≤◌, pos, true, Some, None, MatchBool, IfOk, IfSome, OnOk, option_map};
ghost use Rattle.pv_base.specs.declared.limits.TheConstants.{MAX_SITES};
ghost use Rattle.pv_format.specs.Range.{IsTxnWithin};
ghost use Rattle.pv_lines.specs.Spelled.{number_said, txn_said};
ghost use Rattle.pv_lines.specs.Words.{texts};
ghost use Rattle.pv_outbox_script.specs.Cases.{all_of, at_first, cases_said, ended, literal_on, literal_said, more, more_by, with_case, with_literal, with_value};
ghost use Rattle.pv_outbox_script.specs.CasesView.{AreInRange, IsInRange, items_of, so_far_of};
ghost use Rattle.pv_outbox_script.specs.declared.cases.Place.TheVariants.{Behind, Literals};

use pv_base::{Case, Literal, NoMemory};
use pv_lines::{number_in, txn_in};
use std::alloc::Global;
use std::mem::replace;

/// What may come next.
#[derive(Clone, Copy, Debug, PartialEq, Eq)]
pub(crate) enum Place {
    /// A value.
    Value,
    /// `if`, or `;` and the next case: a value was said.
    Behind,
    /// A literal, of which there has to be one.
    First,
    /// A literal more, or `;` and the next case.
    Literals,
}

/// What some words of a condition have said.
#[derive(Drop)]
pub(crate) struct CasesSoFar {
    /// Where its memory comes from.
    alloc: Global,
    /// The cases that are done.
    done: Vec<Case<i64>>,
    /// What may come next.
    place: Place,
    /// The value of the case that is begun.
    value: i64,
    /// Its literals.
    when: Vec<Literal>,
    /// One more than all cases and literals so far.
    count: u32,
}

/// The cases that words spell, canonical or not.
pub(crate) fn cases_in(alloc: Global, words: &[&[u8]]) -> Result<Option<Vec<Case<i64>>>, NoMemory>
    ensures said { IfOk result (λ found. option_map items_of found ≡ cases_said (texts words.now)) }
    ensures range { IfOk result (λ found. IfSome found (λ cases. AreInRange cases.items)) }
{
    let mut so_far = CasesSoFar::new(alloc);
    for word in words {
        if !so_far.read(word)? {
            return Ok(None);
        }
    }
    so_far.into_cases()
}

impl CasesSoFar {
    // No word was read.
    fn new(alloc: Global) -> CasesSoFar
        ensures first { so_far_of result ≡ at_first }
        ensures range { IsInRange (so_far_of result) result.count }
    {
        CasesSoFar {
            alloc,
            done: Vec::new(alloc),
            place: Place::Value,
            value: 0,
            when: Vec::new(alloc),
            count: 1,
        }
    }

    // Reads a word more, and answers whether it may come.
    fn read(&mut self, word: &[u8]) -> Result<bool, NoMemory>
        requires { IsInRange (so_far_of self.old) self.old.count }
        ensures said { IfOk result (λ may. MatchBool may (more (so_far_of self.old) word.now ≡ Some (so_far_of self.new)) (more (so_far_of self.old) word.now ≡ None)) }
        ensures range { IfOk result (λ may. may ≡ true → IsInRange (so_far_of self.new) self.new.count) }
    {
        match self.place {
            Place::Value => Ok(self.read_value(word)),
            Place::Behind => self.read_behind(word),
            Place::First => self.read_literal(word),
            Place::Literals => self.read_more(word),
        }
    }

    // Reads a value.
    fn read_value(&mut self, word: &[u8]) -> bool
        requires { IsInRange (so_far_of self.old) self.old.count }
        ensures said { MatchBool result
            (option_map (with_value (so_far_of self.old)) (number_said 0 1 word.now) ≡ Some (so_far_of self.new))
            (option_map (with_value (so_far_of self.old)) (number_said 0 1 word.now) ≡ None) }
        ensures range { result ≡ true → IsInRange (so_far_of self.new) self.new.count }
    {
        let Some(value) = value_in(word) else {
            return false;
        };
        self.value = value;
        self.place = Place::Behind;
        true
    }

    // Reads what may come after a value.
    fn read_behind(&mut self, word: &[u8]) -> Result<bool, NoMemory>
        requires { IsInRange (so_far_of self.old) self.old.count }
        ensures said { IfOk result (λ may. MatchBool may
            (more_by Behind (so_far_of self.old) word.now ≡ Some (so_far_of self.new)) (more_by Behind (so_far_of self.old) word.now ≡ None)) }
        ensures range { IfOk result (λ may. may ≡ true → IsInRange (so_far_of self.new) self.new.count) }
    {
        if word == b"if".as_slice() {
            self.place = Place::First;
            return Ok(true);
        }
        if word == b";".as_slice() {
            self.close()?;
            return Ok(true);
        }
        Ok(false)
    }

    // Reads a literal more, or the end of the case.
    fn read_more(&mut self, word: &[u8]) -> Result<bool, NoMemory>
        requires { IsInRange (so_far_of self.old) self.old.count }
        ensures said { IfOk result (λ may. MatchBool may
            (more_by Literals (so_far_of self.old) word.now ≡ Some (so_far_of self.new)) (more_by Literals (so_far_of self.old) word.now ≡ None)) }
        ensures range { IfOk result (λ may. may ≡ true → IsInRange (so_far_of self.new) self.new.count) }
    {
        if word == b";".as_slice() {
            self.close()?;
            return Ok(true);
        }
        self.read_literal(word)
    }

    // Reads a literal.
    fn read_literal(&mut self, word: &[u8]) -> Result<bool, NoMemory>
        requires { IsInRange (so_far_of self.old) self.old.count }
        ensures said { IfOk result (λ may. MatchBool may
            (option_map (with_literal (so_far_of self.old)) (literal_said word.now) ≡ Some (so_far_of self.new))
            (option_map (with_literal (so_far_of self.old)) (literal_said word.now) ≡ None)) }
        ensures range { IfOk result (λ may. may ≡ true → IsInRange (so_far_of self.new) self.new.count) }
    {
        let Some(literal) = literal_in(self.alloc, word)? else {
            return Ok(false);
        };
        // So many there aren't in any line.
        let Some(count) = self.count.checked_add(1) else {
            return Err(NoMemory);
        };
        self.when.push(literal)?;
        self.place = Place::Literals;
        self.count = count;
        Ok(true)
    }

    // The case that is begun is done.
    fn close(&mut self) -> Result<(), NoMemory>
        requires { IsInRange (so_far_of self.old) self.old.count }
        ensures said { OnOk result (so_far_of self.new ≡ with_case (so_far_of self.old)) }
        ensures range { OnOk result (IsInRange (so_far_of self.new) self.new.count) }
    {
        // So many there aren't in any line.
        let Some(count) = self.count.checked_add(1) else {
            return Err(NoMemory);
        };
        let when = replace(&mut self.when, Vec::new(self.alloc));
        let value = self.value;
        self.done.push(Case { when, value })?;
        self.place = Place::Value;
        self.count = count;
        Ok(())
    }

    // The cases, where they may end here.
    fn into_cases(self) -> Result<Option<Vec<Case<i64>>>, NoMemory>
        requires { IsInRange (so_far_of self) self.count }
        ensures said { IfOk result (λ found. option_map items_of found ≡ ended (so_far_of self)) }
        ensures range { IfOk result (λ found. IfSome found (λ cases. AreInRange cases.items)) }
    {
        match self.place {
            Place::Value | Place::First => Ok(None),
            Place::Behind | Place::Literals => Ok(Some(self.all()?)),
        }
    }

    // The cases with the one that is begun.
    fn all(self) -> Result<Vec<Case<i64>>, NoMemory>
        requires { IsInRange (so_far_of self) self.count }
        ensures said { IfOk result (λ cases. cases.items ≡ all_of (so_far_of self)) }
        ensures range { IfOk result (λ cases. AreInRange cases.items) }
    {
        let mut cases = self.done;
        cases.push(Case {
            when: self.when,
            value: self.value,
        })?;
        Ok(cases)
    }
}

// The value of a case that a word spells.
fn value_in(word: &[u8]) -> Option<i64>
    ensures { result ≡ option_map pos (number_said 0 1 word.now) }
{
    let n = number_in(word, 0, 1)?;
    Some(n as i64)
}

// The literal that a word spells.
fn literal_in(alloc: Global, word: &[u8]) -> Result<Option<Literal>, NoMemory>
    ensures said { IfOk result (λ found. found ≡ literal_said word.now) }
    ensures range { IfOk result (λ found. IfSome found (λ literal. IsTxnWithin MAX_SITES literal.txn)) }
{
    match word {
        [b'+', txn @ ..] => literal_of(alloc, true, txn),
        [b'-', txn @ ..] => literal_of(alloc, false, txn),
        _ => Ok(None),
    }
}

// The literal on the transaction that a word spells.
fn literal_of(alloc: Global, commits: bool, word: &[u8]) -> Result<Option<Literal>, NoMemory>
    ensures said { IfOk result (λ found. found ≡ literal_on commits (txn_said word.now)) }
    ensures range { IfOk result (λ found. IfSome found (λ literal. IsTxnWithin MAX_SITES literal.txn)) }
{
    match txn_in(alloc, word)? {
        Some(txn) => Ok(Some(Literal { txn, commits })),
        None => Ok(None),
    }
}
