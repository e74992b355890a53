// Printed replies, items and totals, read by their words.
ghost use Rattle.std.specs.Prelude.{◌≡◌, ◌∷◌, ◌<◌, ◌^◌, ◌⊎◌, [], ℕ, ℤ, List, All, map, length, codes, IfOk, MatchOption};
ghost use Rattle.std.specs.Fmt.{signed_decimal};
ghost use Rattle.std.specs.Option.{option_map};
ghost use Rattle.std.specs.Bool.{MatchBool};
ghost use Rattle.pv_audit.specs.Printed.{IsReply, IsSum};
ghost use Rattle.pv_audit.specs.Words.{AreCaseWords, IsRestOf, IsUnreadable, certainty_word};
ghost use Rattle.pv_audit.specs.declared.first.First.TheVariants as begins;
ghost use Rattle.pv_base.specs.Catalog.{Declared};
ghost use Rattle.pv_base.specs.declared.reply.Reply as code_reply;
ghost use Rattle.pv_model.specs.ReplyText.{reply_text};
ghost use Rattle.pv_script.specs.LineFaults.{texts};
ghost use Rattle.pv_script.specs.LineView.{line_of};

use crate::cases::cases_in;
use crate::parts::{is_word, one_word, split_word, two_words};
use crate::sums::sum_in;
use crate::words::{reply_in, short_in, site_in, txn_in};
use pv_base::{Catalog, ItemId, NoMemory, Reply};
use pv_script::Line;
use std::alloc::Global;

/// The line that begins with `commit` and has these words behind that.
pub fn commit_line(alloc: Global, words: &[&[u8]]) -> Result<Option<Line>, NoMemory>
    ensures { (catalog : Declared) → IfOk result (λ found. IsRestOf catalog begins.Commit (texts words.now) (option_map line_of found)) }
{
    let Some((first, rest)) = split_word(words) else {
        return Ok(None);
    };
    let Some((certainty, answers)) = split_word(rest) else {
        return Ok(None);
    };
    let Some(txn) = txn_in(first) else {
        return Ok(None);
    };
    if !is_certainty(certainty, answers.len()) {
        return Ok(None);
    }
    let Some(replies) = replies_in(alloc, answers)? else {
        return Ok(None);
    };
    Ok(Some(Line::Commit { txn, replies }))
}

// The replies that the words are.
fn replies_in(alloc: Global, words: &[&[u8]]) -> Result<Option<Vec<Reply>>, NoMemory>
    ensures { IfOk result (λ found. MatchOption found
        ((replies : List code_reply.Reply) → All IsReply replies → texts words.now ≡ map reply_text replies → ⊥)
        (λ replies. (texts words.now ≡ map reply_text replies.items) × All IsReply replies.items)) }
{
    let mut replies = Vec::with_capacity(alloc, words.len())?;
    for word in words {
        let Some(reply) = reply_in(word) else {
            return Ok(None);
        };
        replies.push(reply)?;
    }
    Ok(Some(replies))
}

// `certain` stands before one answer, and `possible` before any other number of them.
fn is_certainty(word: &[u8], answers: usize) -> bool
    ensures { MatchBool result (word.now ≡ certainty_word answers) (word.now ≡ certainty_word answers → ⊥) }
{
    if answers == 1 {
        return is_word(word, "certain");
    }
    is_word(word, "possible")
}

/// The line that begins with `item` and has these words behind that.
pub fn item_line(
    alloc: Global,
    words: &[&[u8]],
    catalog: &Catalog,
) -> Result<Option<Line>, NoMemory>
    requires few { length words.now < 2 ^ 32 }
    ensures { IfOk result (λ found. IsRestOf catalog.now begins.Item (texts words.now) (option_map line_of found)) }
{
    let Some((name, value)) = split_word(words) else {
        return Ok(None);
    };
    let Some(item) = catalog.find(name) else {
        return Ok(None);
    };
    if let Some(line) = unreadable_line(item, value) {
        return Ok(Some(line));
    }
    let Some(cases) = cases_in(alloc, value)? else {
        return Ok(None);
    };
    Ok(Some(Line::Item { item, cases }))
}

// The line of an item that is down or locked.
fn unreadable_line(item: ItemId, words: &[&[u8]]) -> Option<Line>
    ensures { MatchOption result (AreCaseWords (texts words.now)) (λ line. IsUnreadable item.0 (texts words.now) (line_of line)) }
{
    if let Some(word) = one_word(words) {
        return down_line(item, word);
    }
    let (word, holder) = two_words(words)?;
    if !is_word(word, "locked") {
        return None;
    }
    let txn = txn_in(holder)?;
    Some(Line::ItemLocked { item, txn })
}

fn down_line(item: ItemId, word: &[u8]) -> Option<Line>
    ensures { MatchOption result (AreCaseWords (word.now ∷ [])) (λ line. IsUnreadable item.0 (word.now ∷ []) (line_of line)) }
{
    if !is_word(word, "down") {
        return None;
    }
    Some(Line::ItemDown(item))
}

/// The line that begins with `total` and has these words behind that.
pub fn total_line(
    alloc: Global,
    words: &[&[u8]],
    catalog: &Catalog,
) -> Result<Option<Line>, NoMemory>
    ensures { IfOk result (λ found. IsRestOf catalog.now begins.Total (texts words.now) (option_map line_of found)) }
{
    let Some((word, answers)) = split_word(words) else {
        return Ok(None);
    };
    if is_certainty(word, answers.len()) {
        return sums_line(alloc, answers);
    }
    match one_word(answers) {
        Some(answer) => Ok(no_total_line(word, answer, catalog)),
        None => Ok(None),
    }
}

// The line of these sums.
fn sums_line(alloc: Global, words: &[&[u8]]) -> Result<Option<Line>, NoMemory>
    ensures { (catalog : Declared) → IfOk result (λ found. IsRestOf catalog begins.Total (certainty_word (length words.now) ∷ texts words.now) (option_map line_of found)) }
{
    let Some(sums) = sums_in(alloc, words)? else {
        return Ok(None);
    };
    Ok(Some(Line::Total(sums)))
}

// The sums that the words are.
fn sums_in(alloc: Global, words: &[&[u8]]) -> Result<Option<Vec<i128>>, NoMemory>
    ensures { IfOk result (λ found. MatchOption found
        ((sums : List ℤ) → All IsSum sums → texts words.now ≡ map signed_decimal sums → ⊥)
        (λ sums. (texts words.now ≡ map signed_decimal sums.items) × All IsSum sums.items)) }
{
    let mut sums = Vec::with_capacity(alloc, words.len())?;
    for word in words {
        let Some(sum) = sum_in(word) else {
            return Ok(None);
        };
        sums.push(sum)?;
    }
    Ok(Some(sums))
}

// The line that says why there is no sum.
fn no_total_line(cause: &[u8], word: &[u8], catalog: &Catalog) -> Option<Line>
    requires other { cause.now ≡ codes "certain" → ⊥ }
    ensures { IsRestOf catalog.now begins.Total (cause.now ∷ (word.now ∷ [])) (option_map line_of result) }
{
    if is_word(cause, "locked") {
        let item = catalog.find(word)?;
        return Some(Line::TotalLocked(item));
    }
    if is_word(cause, "down") {
        let site = site_in(word)?;
        return Some(Line::TotalDown(site));
    }
    if is_word(cause, "outcome-limit") {
        let names = short_in(word)?;
        return Some(Line::TotalLimit(names));
    }
    None
}
