// Words that are taken apart.
ghost use Rattle.std.specs.Prelude.{◌≡◌, ◌∷◌, ◌+◌, [], ℕ, List, true, false, IfNone, IfSome, length};
ghost use Rattle.std.specs.Bool.{MatchBool};
ghost use Rattle.std.specs.List.{list_all, list_any};
ghost use Rattle.std.specs.Str.{bytes_eq};
ghost use Rattle.pv_script.specs.LineFaults.{texts};

use pv_script::look_up;

/// What stands beside a word in a table, if the table has the word. Where it hasn't, the word is none of any words that all stand in the table.
pub fn beside<K: Copy>(word: &[u8], table: &[(&[u8], K)]) -> Option<K>
    ensures spelled { (spelled : K → List ℕ) → list_all (λ entry. bytes_eq entry.0.now (spelled entry.1)) table.now ≡ true → IfSome result (λ found. word.now ≡ spelled found) }
    ensures unlisted { (words : List (List ℕ)) → list_all (λ other. list_any (λ entry. bytes_eq other entry.0.now) table.now) words ≡ true →
        IfNone result (list_any (λ other. bytes_eq word.now other) words ≡ false) }
{
    look_up(word, table)
}

/// Whether the word is this one.
pub fn is_word(word: &[u8], other: &str) -> bool
    ensures { MatchBool result (word.now ≡ other.now) (word.now ≡ other.now → ⊥) }
{
    word == other.as_bytes()
}

/// The first word, and the words behind it.
pub fn split_word<'a, 'b>(words: &'b [&'a [u8]]) -> Option<(&'a [u8], &'b [&'a [u8]])>
    ensures some { IfSome result (λ parts. texts words.now ≡ parts.0.now ∷ texts parts.1.now) }
    ensures less { IfSome result (λ parts. length words.now ≡ length parts.1.now + 1) }
    ensures none { IfNone result (words.now ≡ []) }
{
    let (word, rest) = words.split_first()?;
    Some((*word, rest))
}

/// The word, where there is one alone.
pub fn one_word<'a>(words: &[&'a [u8]]) -> Option<&'a [u8]>
    ensures some { IfSome result (λ word. texts words.now ≡ word.now ∷ []) }
    ensures none { IfNone result ((word : List ℕ) → texts words.now ≡ word ∷ [] → ⊥) }
{
    let (word, rest) = split_word(words)?;
    if !rest.is_empty() {
        return None;
    }
    Some(word)
}

/// The words, where there are two.
pub fn two_words<'a>(words: &[&'a [u8]]) -> Option<(&'a [u8], &'a [u8])>
    ensures some { IfSome result (λ parts. texts words.now ≡ parts.0.now ∷ (parts.1.now ∷ [])) }
    ensures none { IfNone result ((first second : List ℕ) → texts words.now ≡ first ∷ (second ∷ []) → ⊥) }
{
    let (first, rest) = split_word(words)?;
    let second = one_word(rest)?;
    Some((first, second))
}

/// The words, where there are three.
pub fn three_words<'a>(words: &[&'a [u8]]) -> Option<(&'a [u8], &'a [u8], &'a [u8])>
    ensures some { IfSome result (λ parts. texts words.now ≡ parts.0.now ∷ (parts.1.now ∷ (parts.2.now ∷ []))) }
    ensures none { IfNone result ((first second third : List ℕ) → texts words.now ≡ first ∷ (second ∷ (third ∷ [])) → ⊥) }
{
    let (first, rest) = split_word(words)?;
    let (second, third) = two_words(rest)?;
    Some((first, second, third))
}

/// The words, where there are four.
pub fn four_words<'a>(words: &[&'a [u8]]) -> Option<(&'a [u8], &'a [u8], &'a [u8], &'a [u8])>
    ensures some { IfSome result (λ parts. texts words.now ≡ parts.0.now ∷ (parts.1.now ∷ (parts.2.now ∷ (parts.3.now ∷ [])))) }
    ensures none { IfNone result ((first second third fourth : List ℕ) → texts words.now ≡ first ∷ (second ∷ (third ∷ (fourth ∷ []))) → ⊥) }
{
    let (first, rest) = split_word(words)?;
    let (second, third, fourth) = three_words(rest)?;
    Some((first, second, third, fourth))
}
