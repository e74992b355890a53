// The words of printed lines, and what each of them may say. A word says what is printed so, and nothing else: no leading zeros, no sign of 0.
ghost use Rattle.std.specs.Prelude.{◌≡◌, ◌≤◌, ◌==◌, ◌++◌, ◌∷◌, ◌^◌, ◌<◌, ℕ, ℤ, [], if◌then◌else◌, map, IsTrue, IfOk, IfNone, IfSome, codes};
ghost use Rattle.std.specs.Fmt.{decimal, signed_decimal};
ghost use Rattle.std.specs.List.{slice_split, Contains};
ghost use Rattle.pv_audit.specs.Printed.{IsReply, IsSite, IsTxn};
ghost use Rattle.pv_base.specs.Txn.{txn_text};
ghost use Rattle.pv_base.specs.declared.literal.Literal as code_literal;
ghost use Rattle.pv_base.specs.declared.reply.Reply as code_reply;
ghost use Rattle.pv_base.specs.declared.txn.TxnId as code_txn;
ghost use Rattle.pv_model.specs.Meaning.{fits_i64};
ghost use Rattle.pv_model.specs.ReplyText as model;
ghost use Rattle.pv_protocol.specs.LineText.{kind_text, literal_text};
ghost use Rattle.pv_protocol.specs.Lines as lines;
ghost use Rattle.pv_script.specs.LineView.{message_kind_of};

use crate::parts::{beside, is_word};
use itoa::Buffer;
use pv_base::{Decline, Literal, NoMemory, Reply, SiteId, TxnId};
use pv_script::MessageKind;
use std::alloc::Global;
use std::str;

/// What stands between the spaces of a line. Two spaces have an empty word between them.
pub fn words_of<'a>(alloc: Global, line: &'a [u8]) -> Result<Vec<&'a [u8]>, NoMemory>
    ensures { IfOk result (λ words. map (λ word. word.now) words.items ≡ slice_split (λ b. b == 32) line.now) }
{
    let mut words = Vec::with_capacity(alloc, line.len() / 2 + 1)?;
    words.extend(line.split(|b| *b == b' '))?;
    Ok(words)
}

/// The number of 64 bits that is printed so.
pub fn long_in(word: &[u8]) -> Option<u64>
    ensures number { IfSome result (λ n. word.now ≡ decimal n) }
    ensures within { IfSome result (λ n. n < 2 ^ 64) }
    ensures none { IfNone result ((n : ℕ) → n < 2 ^ 64 → word.now ≡ decimal n → ⊥) }
{
    let text = str::from_utf8(word).ok()?;
    let number: u64 = text.parse().ok()?;
    // `parse` takes a `+` and leading zeros too.
    let mut digits = Buffer::new();
    if !is_word(word, digits.format(number)) {
        return None;
    }
    Some(number)
}

/// The number of at most so much that is printed so.
pub fn number_in(word: &[u8], most: u64) -> Option<u64>
    ensures number { IfSome result (λ n. word.now ≡ decimal n) }
    ensures small { IfSome result (λ n. n ≤ most) }
    ensures none { IfNone result ((n : ℕ) → n ≤ most → word.now ≡ decimal n → ⊥) }
{
    let number = long_in(word)?;
    if number > most {
        return None;
    }
    Some(number)
}

/// The number of 32 bits that is printed so.
pub fn short_in(word: &[u8]) -> Option<u32>
    ensures number { IfSome result (λ n. word.now ≡ decimal n) }
    ensures within { IfSome result (λ n. n < 2 ^ 32) }
    ensures none { IfNone result ((n : ℕ) → n < 2 ^ 32 → word.now ≡ decimal n → ⊥) }
{
    let number = number_in(word, 4_294_967_295)?;
    Some(number as u32)
}

/// The site that is printed so.
pub fn site_in(word: &[u8]) -> Option<SiteId>
    ensures site { IfSome result (λ site. word.now ≡ decimal site.0) }
    ensures within { IfSome result (λ site. IsSite site.0) }
    ensures none { IfNone result ((n : ℕ) → IsSite n → word.now ≡ decimal n → ⊥) }
{
    let number = number_in(word, 255)?;
    Some(SiteId(number as u8))
}

/// The number of 64 bits with a sign that is printed so.
pub fn signed_in(word: &[u8]) -> Option<i64>
    ensures number { IfSome result (λ z. word.now ≡ signed_decimal z) }
    ensures within { IfSome result (λ z. IsTrue (fits_i64 z)) }
    ensures none { IfNone result ((z : ℤ) → IsTrue (fits_i64 z) → word.now ≡ signed_decimal z → ⊥) }
{
    let text = str::from_utf8(word).ok()?;
    let number: i64 = text.parse().ok()?;
    let mut digits = Buffer::new();
    if !is_word(word, digits.format(number)) {
        return None;
    }
    Some(number)
}

/// The transaction that is printed so.
pub fn txn_in(word: &[u8]) -> Option<TxnId>
    ensures txn { IfSome result (λ txn. word.now ≡ txn_text txn) }
    ensures within { IfSome result IsTxn }
    ensures none { IfNone result ((txn : code_txn.TxnId) → IsTxn txn → word.now ≡ txn_text txn → ⊥) }
{
    let (front, behind) = cut(word, b'.')?;
    let (middle, last) = cut(behind, b'.')?;
    let site = site_in(front)?;
    let epoch = short_in(middle)?;
    let number = short_in(last)?;
    Some(TxnId {
        site,
        epoch,
        number,
    })
}

/// The literal that is printed so.
pub fn literal_in(word: &[u8]) -> Option<Literal>
    ensures literal { IfSome result (λ literal. word.now ≡ literal_text literal) }
    ensures within { IfSome result (λ literal. IsTxn literal.txn) }
    ensures none { IfNone result ((literal : code_literal.Literal) → IsTxn literal.txn → word.now ≡ literal_text literal → ⊥) }
{
    let (byte, name) = split_byte(word)?;
    let commits = sign_in(byte)?;
    let txn = txn_in(name)?;
    Some(Literal { txn, commits })
}

// Whether a transaction with this byte before it commits.
fn sign_in(byte: u8) -> Option<bool>
    ensures some { IfSome result (λ commits. byte ≡ (if commits then 43 else 45)) }
    ensures none { IfNone result ((byte ≡ 43 → ⊥) × (byte ≡ 45 → ⊥)) }
{
    match byte {
        b'+' => Some(true),
        b'-' => Some(false),
        _ => None,
    }
}

// Each reply that is no number, with what it is called.
const REPLIES: [(&[u8], Reply); 4] = [
    (b"nothing", Reply::Nothing),
    (b"declined-require", Reply::Declined(Decline::Require)),
    (b"declined-overflow", Reply::Declined(Decline::Overflow)),
    (
        b"declined-zero-divisor",
        Reply::Declined(Decline::ZeroDivisor),
    ),
];

/// The reply that is printed so.
pub fn reply_in(word: &[u8]) -> Option<Reply>
    ensures reply { IfSome result (λ reply. word.now ≡ model.reply_text reply) }
    ensures within { IfSome result IsReply }
    ensures none { IfNone result ((reply : code_reply.Reply) → IsReply reply → word.now ≡ model.reply_text reply → ⊥) }
{
    if let Some(value) = signed_in(word) {
        return Some(Reply::Value(value));
    }
    beside(word, &REPLIES)
}

// Each kind of messages, with what it is called.
const KINDS: [(&[u8], MessageKind); 8] = [
    (b"lock", MessageKind::Lock),
    (b"granted", MessageKind::Granted),
    (b"denied", MessageKind::Denied),
    (b"prepare", MessageKind::Prepare),
    (b"yes", MessageKind::Yes),
    (b"no", MessageKind::No),
    (b"outcome", MessageKind::Outcome),
    (b"ask", MessageKind::Ask),
];

/// The kind of messages that is called so.
pub fn kind_in(word: &[u8]) -> Option<MessageKind>
    ensures kind { IfSome result (λ kind. word.now ≡ kind_text (message_kind_of kind)) }
    ensures none { IfNone result ((kind : lines.MessageKind) → word.now ≡ kind_text kind → ⊥) }
{
    beside(word, &KINDS)
}

/// The sites from which and to which a message goes, as `0>1`.
pub fn way_in(word: &[u8]) -> Option<(SiteId, SiteId)>
    ensures way { IfSome result (λ way. word.now ≡ decimal way.0.0 ++ (codes ">" ++ decimal way.1.0)) }
    ensures from { IfSome result (λ way. IsSite way.0.0) }
    ensures to { IfSome result (λ way. IsSite way.1.0) }
    ensures none { IfNone result ((from to : ℕ) → IsSite from → IsSite to → word.now ≡ decimal from ++ (codes ">" ++ decimal to) → ⊥) }
{
    let (front, behind) = cut(word, b'>')?;
    let from = site_in(front)?;
    let to = site_in(behind)?;
    Some((from, to))
}

// What stands before the first byte of this value, and what behind it.
fn cut(word: &[u8], byte: u8) -> Option<(&[u8], &[u8])>
    ensures some { IfSome result (λ parts. word.now ≡ parts.0.now ++ (byte ∷ parts.1.now)) }
    ensures first { IfSome result (λ parts. Contains parts.0.now byte → ⊥) }
    ensures none { IfNone result (Contains word.now byte → ⊥) }
{
    let place = word.iter().position(|b| *b == byte)?;
    let (front, rest) = word.split_at(place);
    let (_, behind) = rest.split_first()?;
    Some((front, behind))
}

/// The first byte, and those behind it.
pub fn split_byte(word: &[u8]) -> Option<(u8, &[u8])>
    ensures some { IfSome result (λ parts. word.now ≡ parts.0 ∷ parts.1.now) }
    ensures none { IfNone result (word.now ≡ []) }
{
    let (byte, rest) = word.split_first()?;
    Some((*byte, rest))
}
