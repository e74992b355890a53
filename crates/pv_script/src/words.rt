// The words of a line, and the numbers that words spell.
ghost use Rattle.std.specs.Prelude.{◌≡◌, ℕ, ℤ, ◌^◌, ◌<◌, map, IsTrue, IfOk, IfNone, IfSome};
ghost use Rattle.std.specs.List.{list_all};
ghost use Rattle.pv_model.specs.Meaning.{fits_i64};
ghost use Rattle.pv_base.specs.Name.{is_digit};
ghost use Rattle.pv_model.specs.Text.{words, digits_of, is_text_byte, IsDecimal, IsSignedDecimal};

use pv_base::is_blank;
use std::alloc::{AllocError, Global};
use std::str;

/// Whether a line has printable bytes and tabs alone.
pub fn is_text(line: &[u8]) -> bool
    ensures { result ≡ list_all is_text_byte line.now }
{
    line.iter().all(|b| matches!(*b, b'\t' | b' '..=b'~'))
}

/// The words of a line.
pub fn words_of<'a>(alloc: Global, line: &'a [u8]) -> Result<Vec<&'a [u8]>, AllocError>
    ensures { IfOk result (λ found. map (λ word. word.now) found.items ≡ words line.now) }
{
    // A blank stands between two words, so there is room for all of them.
    let mut found = Vec::with_capacity(alloc, line.len() / 2 + 1)?;
    let parts = line.split(|b| is_blank(*b));
    found.extend(parts.filter(|word| !word.is_empty()))?;
    Ok(found)
}

/// The number below 2^64 that a word spells.
pub fn number_of(word: &[u8]) -> Option<u64>
    ensures number { IfSome result (λ n. IsDecimal word.now n) }
    ensures none { IfNone result ((n : ℕ) → n < 2 ^ 64 → IsDecimal word.now n → ⊥) }
{
    // `parse` would take a `+` too.
    if !are_digits(word) {
        return None;
    }
    str::from_utf8(word).ok()?.parse().ok()
}

/// The signed number of 64 bits that a word spells.
pub fn signed_of(word: &[u8]) -> Option<i64>
    ensures number { IfSome result (λ z. IsSignedDecimal word.now z) }
    ensures none { IfNone result ((z : ℤ) → IsTrue (fits_i64 z) → IsSignedDecimal word.now z → ⊥) }
{
    if !are_digits(without_minus(word)) {
        return None;
    }
    str::from_utf8(word).ok()?.parse().ok()
}

// The word without a `-` before it.
fn without_minus(word: &[u8]) -> &[u8]
    ensures { result.now ≡ digits_of word.now }
{
    match word {
        [b'-', digits @ ..] => digits,
        _ => word,
    }
}

fn are_digits(word: &[u8]) -> bool
    ensures { result ≡ list_all is_digit word.now }
{
    word.iter().all(|b| b.is_ascii_digit())
}
