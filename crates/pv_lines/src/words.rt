// The words of a line, and the parts of a word.
ghost use Rattle.std.specs.Prelude.{◌≡◌, ◌==◌, map, IfOk};
ghost use Rattle.std.specs.List.{list_all, slice_split};
ghost use Rattle.pv_lines.specs.Says.{Gives};
ghost use Rattle.pv_lines.specs.Words.{texts, words_said};
ghost use Rattle.pv_model.specs.Text.{is_text_byte, words};

use crate::{Cause, LineFault};
use pv_base::{MAX_LINE, is_blank};
use std::alloc::{AllocError, Global};

/// The words of a line, if it is short and printable.
pub fn words_in<'a>(alloc: Global, line: &'a [u8]) -> Result<Vec<&'a [u8]>, LineFault>
    ensures { Gives (λ found. texts found.items) (words_said line.now) result }
{
    if line.len() > MAX_LINE {
        return Err(LineFault::At(Cause::TooLong));
    }
    if !is_text(line) {
        return Err(LineFault::At(Cause::NotText));
    }
    Ok(words_of(alloc, line)?)
}

// Whether a line has printable bytes and tabs alone.
fn is_text(line: &[u8]) -> bool
    ensures { result ≡ list_all is_text_byte line.now }
{
    line.iter().all(|b| matches!(*b, b'\t' | b' '..=b'~'))
}

// What stands between blanks.
fn words_of<'a>(alloc: Global, line: &'a [u8]) -> Result<Vec<&'a [u8]>, AllocError>
    ensures { IfOk result (λ found. texts found.items ≡ words line.now) }
{
    // A blank stands between two words, so there is room for all of them.
    let mut found = Vec::with_capacity(alloc, line.len() / 2 + 1)?;
    let parts = line.split(|b| is_blank(*b));
    found.extend(parts.filter(|word| !word.is_empty()))?;
    Ok(found)
}

/// What stands between the dots of a word.
pub fn parts_of<'a>(alloc: Global, word: &'a [u8]) -> Result<Vec<&'a [u8]>, AllocError>
    ensures { IfOk result (λ found. texts found.items ≡ slice_split (λ b. b == 46) word.now) }
{
    let mut found = Vec::new(alloc);
    found.extend(word.split(|b| *b == b'.'))?;
    Ok(found)
}
