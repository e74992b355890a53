// What single words after the first one of a line spell.
ghost use Rattle.std.specs.Prelude.{◌≡◌, ℕ, ◌<◌, false, IfSome, IfNone, IsTrue};
ghost use Rattle.std.specs.List.{Contains};
ghost use Rattle.pv_model.specs.LineCauses.{mode_words};
ghost use Rattle.pv_model.specs.LineForms as field;
ghost use Rattle.pv_model.specs.LineForms.{has_good_number};
ghost use Rattle.pv_model.specs.Meaning.{fits_i64};
ghost use Rattle.pv_model.specs.Schedule.{IsIn, IsMode};
ghost use Rattle.pv_model.specs.Text.{IsDecimal, IsSignedDecimal};

use crate::words::{number_of, signed_of};
use pv_base::{Mode, SiteId};

/// The number in a range that a word spells.
pub fn number_in(word: &[u8], least: u64, most: u64) -> Option<u64>
    ensures number { IfSome result (λ n. IsIn least most word.now n) }
    ensures none { (sites : ℕ) → IfNone result (has_good_number sites (field.number least most, word.now) ≡ false) }
{
    let n = number_of(word)?;
    if n < least || most < n {
        return None;
    }
    Some(n)
}

/// The site that a word spells, of so many.
pub fn site_in(word: &[u8], sites: u8) -> Option<SiteId>
    ensures site { IfSome result (λ site. IsDecimal word.now site.0 × site.0 < sites) }
    ensures none { IfNone result (has_good_number sites (field.site, word.now) ≡ false) }
{
    let n = number_of(word)?;
    if n >= u64::from(sites) {
        return None;
    }
    Some(SiteId(n as u8))
}

/// The value of an item that a word spells.
pub fn value_in(word: &[u8]) -> Option<i64>
    ensures value { IfSome result (λ z. IsSignedDecimal word.now z × IsTrue (fits_i64 z)) }
    ensures none { (sites : ℕ) → IfNone result (has_good_number sites (field.value, word.now) ≡ false) }
{
    signed_of(word)
}

/// The mode that a word is.
pub fn mode_of(word: &[u8]) -> Option<Mode>
    ensures mode { IfSome result (λ mode. IsMode word.now mode) }
    ensures none { IfNone result (Contains mode_words word.now → ⊥) }
{
    match word {
        b"lost" => Some(Mode::Lost),
        b"kept" => Some(Mode::Kept),
        b"torn" => Some(Mode::Torn),
        _ => None,
    }
}
