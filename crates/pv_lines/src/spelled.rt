// What single words spell: numbers, transactions, modes and truths.
ghost use Rattle.std.specs.Prelude.{◌≡◌, ℕ, ◌^◌, ◌<◌, ◌≤◌, [], ◌∷◌, IfOk, IfSome, IfNone};
ghost use Rattle.std.specs.List.{list_all};
ghost use Rattle.pv_base.specs.Name.{is_digit};
ghost use Rattle.pv_base.specs.declared.limits.TheConstants.{MAX_SITES};
ghost use Rattle.pv_lines.specs.Spelled.{mode_said, number_said, truth_said, txn_of_parts, txn_said};
ghost use Rattle.pv_lines.specs.Words.{texts};
ghost use Rattle.pv_model.specs.Text.{IsDecimal};

use crate::words::parts_of;
use pv_base::{MAX_SITES, Mode, NoMemory, SiteId, TxnId};
use std::alloc::Global;
use std::str;

/// The number in a range that a word spells.
pub fn number_in(word: &[u8], least: u64, most: u64) -> Option<u64>
    ensures said { result ≡ number_said least most word.now }
    ensures range { IfSome result (λ n. (least ≤ n) × (n ≤ most)) }
{
    let n = number_of(word)?;
    if n < least || most < n {
        return None;
    }
    Some(n)
}

// The number below 2^64 that a word spells.
fn number_of(word: &[u8]) -> Option<u64>
    ensures number { IfSome result (λ n. IsDecimal word.now n) }
    ensures none { IfNone result ((n : ℕ) → n < 2 ^ 64 → IsDecimal word.now n → ⊥) }
{
    // `parse` would take a `+` too.
    if !are_digits(word) {
        return None;
    }
    str::from_utf8(word).ok()?.parse().ok()
}

fn are_digits(word: &[u8]) -> bool
    ensures { result ≡ list_all is_digit word.now }
{
    word.iter().all(|b| b.is_ascii_digit())
}

/// The transaction that a word spells, as `0.1.0`.
pub fn txn_in(alloc: Global, word: &[u8]) -> Result<Option<TxnId>, NoMemory>
    ensures said { IfOk result (λ found. found ≡ txn_said word.now) }
    ensures site { IfOk result (λ found. IfSome found (λ txn. txn.site.0 < MAX_SITES)) }
{
    let parts = parts_of(alloc, word)?;
    Ok(txn_of_parts(&parts))
}

// The transaction whose parts these are.
fn txn_of_parts(parts: &[&[u8]]) -> Option<TxnId>
    ensures said { result ≡ txn_of_parts (texts parts.now) }
    ensures site { IfSome result (λ txn. txn.site.0 < MAX_SITES) }
{
    let [site, epoch, number] = parts else {
        return None;
    };
    txn_of(site, epoch, number)
}

// The transaction of this site, epoch and number.
fn txn_of(site: &[u8], epoch: &[u8], number: &[u8]) -> Option<TxnId>
    ensures said { result ≡ txn_of_parts (site.now ∷ epoch.now ∷ number.now ∷ []) }
    ensures site { IfSome result (λ txn. txn.site.0 < MAX_SITES) }
{
    let site = number_in(site, 0, u64::from(MAX_SITES) - 1)?;
    let epoch = number_in(epoch, 0, u64::from(u32::MAX))?;
    let number = number_in(number, 0, u64::from(u32::MAX))?;
    Some(TxnId {
        site: SiteId(site as u8),
        epoch: epoch as u32,
        number: number as u32,
    })
}

/// The mode that a word is.
#[tactic(auto, unfolding(crate::specs::Spelled::mode_said))]
pub fn mode_in(word: &[u8]) -> Option<Mode>
    ensures { result ≡ mode_said word.now }
{
    if word == b"lost".as_slice() {
        return Some(Mode::Lost);
    }
    if word == b"kept".as_slice() {
        return Some(Mode::Kept);
    }
    if word == b"torn".as_slice() {
        return Some(Mode::Torn);
    }
    None
}

/// Whether a word is `yes`, or else `no`.
#[tactic(auto, unfolding(crate::specs::Spelled::truth_said))]
pub fn truth_in(word: &[u8]) -> Option<bool>
    ensures { result ≡ truth_said word.now }
{
    if word == b"yes".as_slice() {
        return Some(true);
    }
    if word == b"no".as_slice() {
        return Some(false);
    }
    None
}
