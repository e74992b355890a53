// Sums as they are printed. They have 128 bits, which `parse` doesn't read.
ghost use Rattle.std.specs.Prelude.{◌≡◌, ◌+◌, ◌*◌, ◌^◌, ◌<◌, ◌∷◌, ℕ, ℤ, List, suc, IfNone, IfSome};
ghost use Rattle.std.specs.Char.{digit_value};
ghost use Rattle.std.specs.Fmt.{decimal, signed_decimal};
ghost use Rattle.std.specs.Str.Parse.{AllDigits, digits_value};
ghost use Rattle.pv_audit.specs.Printed.{IsSum};

use crate::parts::is_word;
use crate::words::split_byte;
use itoa::Buffer;

/// The sum that is printed so.
pub fn sum_in(word: &[u8]) -> Option<i128>
    ensures sum { IfSome result (λ z. word.now ≡ signed_decimal z) }
    ensures within { IfSome result IsSum }
    ensures none { IfNone result ((z : ℤ) → IsSum z → word.now ≡ signed_decimal z → ⊥) }
{
    match without_minus(word) {
        Some(digits) => negative_in(digits),
        None => positive_in(word),
    }
}

// The bytes behind a `-`, where the word begins with one.
fn without_minus(word: &[u8]) -> Option<&[u8]>
    ensures some { IfSome result (λ digits. word.now ≡ 45 ∷ digits.now) }
    ensures none { IfNone result ((digits : List ℕ) → word.now ≡ 45 ∷ digits → ⊥) }
{
    let (byte, digits) = split_byte(word)?;
    if byte != b'-' {
        return None;
    }
    Some(digits)
}

// The sum that isn't below 0 and is printed so.
fn positive_in(word: &[u8]) -> Option<i128>
    ensures sum { IfSome result (λ z. word.now ≡ signed_decimal z) }
    ensures within { IfSome result IsSum }
    ensures none { IfNone result ((n : ℕ) → n < 2 ^ 127 → word.now ≡ decimal n → ⊥) }
{
    let number = wide_in(word)?;
    if number > i128::MAX as u128 {
        return None;
    }
    Some(number as i128)
}

// The sum below 0 whose digits are printed so behind `-`.
fn negative_in(digits: &[u8]) -> Option<i128>
    ensures sum { IfSome result (λ z. 45 ∷ digits.now ≡ signed_decimal z) }
    ensures within { IfSome result IsSum }
    ensures none { IfNone result ((n : ℕ) → n < 2 ^ 127 → digits.now ≡ decimal (suc n) → ⊥) }
{
    let number = wide_in(digits)?;
    if number == 0 {
        return None;
    }
    let before = number - 1;
    if before > i128::MAX as u128 {
        return None;
    }
    Some(-1 - before as i128)
}

// The number of 128 bits that is printed so.
fn wide_in(word: &[u8]) -> Option<u128>
    ensures number { IfSome result (λ n. word.now ≡ decimal n) }
    ensures within { IfSome result (λ n. n < 2 ^ 128) }
    ensures none { IfNone result ((n : ℕ) → n < 2 ^ 128 → word.now ≡ decimal n → ⊥) }
{
    let number = digits_in(word)?;
    // Leading zeros are digits too.
    let mut digits = Buffer::new();
    if !is_word(word, digits.format(number)) {
        return None;
    }
    Some(number)
}

// The number of 128 bits that these digits write.
fn digits_in(word: &[u8]) -> Option<u128>
    ensures number { IfSome result (λ n. n ≡ digits_value 10 word.now) }
    ensures none { IfNone result (AllDigits 10 word.now → digits_value 10 word.now < 2 ^ 128 → ⊥) }
{
    let mut number = 0;
    for byte in word {
        number = with_digit(number, *byte)?;
    }
    Some(number)
}

// The number with one digit more.
fn with_digit(number: u128, byte: u8) -> Option<u128>
    ensures number { IfSome result (λ n. n ≡ number * 10 + digit_value byte) }
    ensures none { IfNone result (digit_value byte < 10 → number * 10 + digit_value byte < 2 ^ 128 → ⊥) }
{
    let digit = (byte as char).to_digit(10)?;
    number.checked_mul(10)?.checked_add(digit as u128)
}
