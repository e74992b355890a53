// Bytes of texts, and the names of items.
ghost use Rattle.std.specs.Prelude.{◌≡◌, map};
ghost use Rattle.std.specs.List.{list_all, list_any};
ghost use Rattle.std.specs.Str.{bytes_eq};
ghost use Rattle.pv_base.specs.Name.{continues_name, is_blank, is_keyword, is_name, is_spelled_as_name};

use crate::MAX_NAME;

// The words of the program language, none of which names an item.
const KEYWORDS: [&[u8]; 10] = [
    b"or", b"and", b"not", b"min", b"max", b"if", b"else", b"require", b"return", b"certain",
];

/// Whether the text names an item: 1 to 16 bytes, a lower-case letter and then lower-case letters, digits and
/// `_`, and no keyword of the program language.
#[tactic(auto, unfolding(crate::specs::Name::is_name))]
pub fn is_name(text: &[u8]) -> bool
    ensures { result ≡ is_name text.now }
{
    text.len() <= MAX_NAME && is_spelled_as_name(text) && !is_keyword(text)
}

// Whether the text is a lower-case letter and then bytes that may follow it.
#[tactic(auto, unfolding(crate::specs::Name::is_spelled_as_name))]
fn is_spelled_as_name(text: &[u8]) -> bool
    ensures { result ≡ is_spelled_as_name text.now }
{
    match text {
        [first, rest @ ..] => first.is_ascii_lowercase() && all_continue_name(rest),
        [] => false,
    }
}

// Whether each byte may follow the first letter of a name.
fn all_continue_name(bytes: &[u8]) -> bool
    ensures { result ≡ list_all continues_name bytes.now }
{
    bytes.iter().all(|byte| continues_name(*byte))
}

/// Whether a byte is a space or a tab.
pub fn is_blank(byte: u8) -> bool
    ensures { result ≡ is_blank byte }
{
    byte == b' ' || byte == b'\t'
}

/// Whether a byte may follow the first letter of a name.
pub fn continues_name(byte: u8) -> bool
    ensures { result ≡ continues_name byte }
{
    byte.is_ascii_lowercase() || byte.is_ascii_digit() || byte == b'_'
}

// Whether the text is a word of the program language.
#[tactic(auto, unfolding(crate::specs::Name::is_keyword))]
fn is_keyword(text: &[u8]) -> bool
    ensures { result ≡ is_keyword text.now }
{
    is_among(text, &KEYWORDS)
}

// Whether the text is one of the words. They are an argument, so that no proof writes the table of keywords out.
fn is_among(text: &[u8], words: &[&[u8]]) -> bool
    ensures { result ≡ list_any (λ word. bytes_eq text.now word.now) words.now }
{
    words.iter().any(|word| text == *word)
}
