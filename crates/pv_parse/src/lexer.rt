// The token that a text begins with: a word, a number or a symbol, each as long as may be.
ghost use Rattle.std.specs.Prelude.{◌≡◌, ℕ, ◌+◌, ◌<◌, ◌≤◌, Bool, false, true, not, Some, length, slice_index, IfSome, IsTrue, [], ◌∷◌};
ghost use Rattle.std.specs.Option.{option_map};
ghost use Rattle.pv_base.specs.Name.{is_blank, is_lower, is_digit, continues_name};
ghost use Rattle.pv_model.specs.Tokens as model;
ghost use Rattle.pv_parse.specs.TokenView.{token_of, HasDigits, IsOther, StartsWith, token_beside, pair_beside, single_beside, listed_pair, listed_token};

use crate::token::Token;
use pv_ast::Op;
use pv_base::{MAX_NAME, continues_name};

// The words that stand for themselves.
const WORDS: [(&[u8], Token<'static>); 10] = [
    (b"or", Token::Operator(Op::Or)),
    (b"and", Token::Operator(Op::And)),
    (b"not", Token::Not),
    (b"min", Token::Operator(Op::Min)),
    (b"max", Token::Operator(Op::Max)),
    (b"if", Token::If),
    (b"else", Token::Else),
    (b"require", Token::Require),
    (b"return", Token::Return),
    (b"certain", Token::Certain),
];

// The symbols of two bytes.
const PAIRS: [((u8, u8), Token<'static>); 4] = [
    ((b'<', b'>'), Token::Operator(Op::Unequal)),
    ((b'<', b'='), Token::Operator(Op::AtMost)),
    ((b'>', b'='), Token::Operator(Op::AtLeast)),
    ((b':', b'='), Token::Becomes),
];

// The symbols of one byte.
const SINGLES: [(u8, Token<'static>); 14] = [
    (b'=', Token::Operator(Op::Equal)),
    (b'<', Token::Operator(Op::Less)),
    (b'>', Token::Operator(Op::Greater)),
    (b'+', Token::Operator(Op::Plus)),
    (b'-', Token::Operator(Op::Sub)),
    (b'*', Token::Operator(Op::Times)),
    (b'/', Token::Operator(Op::Over)),
    (b'%', Token::Operator(Op::Rest)),
    (b'(', Token::Open),
    (b')', Token::Close),
    (b'{', Token::OpenBody),
    (b'}', Token::CloseBody),
    (b';', Token::Next),
    (b',', Token::Comma),
];

/// The token that a text begins with, and its length. A byte that begins no token is stray.
pub(crate) fn first_token<'a>(text: &'a [u8]) -> (Token<'a>, usize)
    requires some { 0 < length text.now }
    requires no_blank { is_blank (slice_index text.now 0) ≡ false }
    ensures token { StartsWith text.now (token_of result.0) result.1 }
    ensures digits { HasDigits result.0 }
{
    match text {
        [b'a'..=b'z', ..] => first_word(text),
        [b'0'..=b'9', ..] => first_number(text),
        _ => first_symbol(text),
    }
}

// The word that a text begins with.
fn first_word<'a>(text: &'a [u8]) -> (Token<'a>, usize)
    requires some { 0 < length text.now }
    requires lower { is_lower (slice_index text.now 0) ≡ true }
    ensures token { StartsWith text.now (token_of result.0) result.1 }
    ensures digits { HasDigits result.0 }
{
    let size = word_size(text);
    let (word, _) = text.split_at(size);
    (word_token(word), size)
}

// How many bytes at the front of a text one name may have.
fn word_size(text: &[u8]) -> usize
    ensures within { result ≤ length text.now }
    ensures short { result ≤ MAX_NAME }
    ensures each { (k : ℕ) → k < result → continues_name (slice_index text.now k) ≡ true }
    ensures end { result < MAX_NAME → result < length text.now → continues_name (slice_index text.now result) ≡ false }
{
    for (i, byte) in text.iter().enumerate() {
        if i == MAX_NAME || !continues_name(*byte) {
            return i;
        }
    }
    text.len()
}

// The token that a word is: one that stands for itself, else a name.
fn word_token<'a>(word: &'a [u8]) -> Token<'a>
    requires word { IsTrue (model.is_name_word word.now) }
    ensures token { model.token_of word.now ≡ Some (token_of result) }
    ensures digits { HasDigits result }
{
    match listed_word(word) {
        Some(token) => token,
        None => Token::Name(word),
    }
}

// The token that a word is, if it stands for itself.
#[tactic(auto, unfolding(crate::specs::TokenView::token_beside))]
fn listed_word<'a>(word: &[u8]) -> Option<Token<'a>>
    requires lower { is_lower (slice_index word.now 0) ≡ true }
    ensures token { option_map token_of result ≡ listed_token word.now }
    ensures digits { IfSome result HasDigits }
{
    token_in(word, &WORDS)
}

// The token beside the first text of a table that bytes are.
#[tactic(auto, unfolding(crate::specs::TokenView::token_beside))]
fn token_in<'a>(bytes: &[u8], table: &[(&[u8], Token<'a>)]) -> Option<Token<'a>>
    ensures { result ≡ token_beside bytes.now table.now }
{
    table
        .iter()
        .find(|entry| bytes == entry.0)
        .map(|entry| entry.1)
}

// The number that a text begins with.
fn first_number<'a>(text: &'a [u8]) -> (Token<'a>, usize)
    requires some { 0 < length text.now }
    requires digit { is_digit (slice_index text.now 0) ≡ true }
    ensures token { StartsWith text.now (token_of result.0) result.1 }
    ensures digits { HasDigits result.0 }
{
    let size = number_size(text);
    let (digits, _) = text.split_at(size);
    (Token::Number(digits), size)
}

// How many digits a text begins with.
fn number_size(text: &[u8]) -> usize
    ensures within { result ≤ length text.now }
    ensures each { (k : ℕ) → k < result → is_digit (slice_index text.now k) ≡ true }
    ensures end { result < length text.now → is_digit (slice_index text.now result) ≡ false }
{
    for (i, byte) in text.iter().enumerate() {
        if !byte.is_ascii_digit() {
            return i;
        }
    }
    text.len()
}

// The symbol that a text begins with, or a stray byte.
fn first_symbol<'a>(text: &'a [u8]) -> (Token<'a>, usize)
    requires some { 0 < length text.now }
    requires other { IsOther (slice_index text.now 0) }
    requires no_blank { is_blank (slice_index text.now 0) ≡ false }
    ensures token { StartsWith text.now (token_of result.0) result.1 }
    ensures digits { HasDigits result.0 }
{
    if let Some(token) = listed_pair(text) {
        return (token, 2);
    }
    let first = text[0];
    match listed_single(first) {
        Some(token) => (token, 1),
        None => (Token::Stray(first), 1),
    }
}

// The token that the first two bytes of a text are, if they are a symbol that stands for itself.
#[tactic(auto, unfolding(crate::specs::TokenView::pair_beside))]
fn listed_pair<'a>(text: &[u8]) -> Option<Token<'a>>
    requires other { IsOther (slice_index text.now 0) }
    ensures token { option_map token_of result ≡ listed_pair text.now }
    ensures digits { IfSome result HasDigits }
{
    let [first, second, ..] = text else {
        return None;
    };
    pair_in((*first, *second), &PAIRS)
}

// The token beside two bytes in a table.
#[tactic(auto, unfolding(crate::specs::TokenView::pair_beside))]
fn pair_in<'a>(bytes: (u8, u8), table: &[((u8, u8), Token<'a>)]) -> Option<Token<'a>>
    ensures { result ≡ pair_beside bytes table.now }
{
    table
        .iter()
        .find(|entry| bytes.0 == entry.0.0 && bytes.1 == entry.0.1)
        .map(|entry| entry.1)
}

// The token that a byte is, if it is a symbol that stands for itself.
#[tactic(auto, unfolding(crate::specs::TokenView::single_beside))]
fn listed_single<'a>(byte: u8) -> Option<Token<'a>>
    ensures token { option_map token_of result ≡ listed_token (byte ∷ []) }
    ensures digits { IfSome result HasDigits }
{
    single_in(byte, &SINGLES)
}

// The token beside a byte in a table.
#[tactic(auto, unfolding(crate::specs::TokenView::single_beside))]
fn single_in<'a>(byte: u8, table: &[(u8, Token<'a>)]) -> Option<Token<'a>>
    ensures { result ≡ single_beside byte table.now }
{
    table
        .iter()
        .find(|entry| byte == entry.0)
        .map(|entry| entry.1)
}
