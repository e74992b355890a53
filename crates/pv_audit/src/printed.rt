// A printed line, read by its words.
ghost use Rattle.std.specs.Prelude.{◌≡◌, ◌∷◌, ◌<◌, ◌^◌, ◌-◌, [], ℕ, List, All, map, length, codes, IfOk, IfSome, IfNone, MatchOption};
ghost use Rattle.std.specs.Fmt.{decimal};
ghost use Rattle.std.specs.List.{join_with_byte};
ghost use Rattle.std.specs.Option.{option_map};
ghost use Rattle.std.specs.Str.{bytes_eq};
ghost use Rattle.pv_audit.specs.FirstWords.{first_word};
ghost use Rattle.pv_audit.specs.Printed.{AreNamed, IsPrinted, IsPrintedForm, IsSite, IsTxn};
ghost use Rattle.pv_audit.specs.Words.{AreCaseWords, IsCauseLineOf, IsLineOf, IsRestOf, certainty_word};
ghost use Rattle.pv_audit.specs.declared.first.First as code_first;
ghost use Rattle.pv_audit.specs.declared.first.First.TheVariants as begins;
ghost use Rattle.pv_base.specs.Catalog.{Declared};
ghost use Rattle.pv_base.specs.Txn.{txn_text};
ghost use Rattle.pv_base.specs.declared.txn.TxnId as code;
ghost use Rattle.pv_script.specs.LineFaults.{texts};
ghost use Rattle.pv_script.specs.LineView.{line_of};

use crate::first::{First, first_of};
use crate::parts::{four_words, is_word, one_word, split_word, two_words};
use crate::refused::refuse_line;
use crate::shown::{commit_line, item_line, total_line};
use crate::words::{kind_in, number_in, short_in, site_in, txn_in, way_in, words_of};
use pv_base::{Catalog, NoMemory, SiteId, TxnId};
use pv_script::Line;
use std::alloc::Global;

/// The line that is printed as this text over the catalog. There is none where the text is no printed form. Takes time in proportion to the text, and for an
/// item to the alternatives of its cases.
pub fn read_line(alloc: Global, text: &[u8], catalog: &Catalog) -> Result<Option<Line>, NoMemory>
    requires named { AreNamed catalog.now }
    requires short { length text.now < 2 ^ 32 - 1 }
    ensures { IfOk result (λ found. MatchOption found (IsPrintedForm catalog.now text.now → ⊥) (λ line. IsPrinted catalog.now text.now (line_of line))) }
{
    let words = words_of(alloc, text)?;
    line_in(alloc, &words, catalog)
}

// The line that has these words.
fn line_in(alloc: Global, words: &[&[u8]], catalog: &Catalog) -> Result<Option<Line>, NoMemory>
    requires few { length words.now < 2 ^ 32 }
    ensures { IfOk result (λ found. IsLineOf catalog.now (texts words.now) (option_map line_of found)) }
{
    let Some((word, rest)) = split_word(words) else {
        return Ok(None);
    };
    let Some(first) = first_of(word) else {
        return Ok(None);
    };
    rest_in(alloc, first, rest, catalog)
}

// The line that begins so, and has these words behind that.
fn rest_in(
    alloc: Global,
    first: First,
    words: &[&[u8]],
    catalog: &Catalog,
) -> Result<Option<Line>, NoMemory>
    requires few { length words.now < 2 ^ 32 }
    ensures { IfOk result (λ found. IsRestOf catalog.now first (texts words.now) (option_map line_of found)) }
{
    match first {
        First::Txn => Ok(txn_line(words)),
        First::Commit => commit_line(alloc, words),
        First::Refuse => Ok(refuse_line(words, catalog)),
        First::Full => Ok(full_line(words)),
        First::Spent => Ok(spent_line(words)),
        First::Down => Ok(down_line(words)),
        First::Up => Ok(up_line(words)),
        First::Stopped => Ok(stopped_line(words)),
        First::Fault => Ok(fault_line(words)),
        First::Started => Ok(started_line(words)),
        First::No => Ok(no_message_line(words)),
        First::Sent => Ok(sent_line(words)),
        First::Order => order_line(alloc, words),
        First::Committed => committed_line(alloc, words),
        First::Open => open_line(alloc, words),
        First::Item => item_line(alloc, words, catalog),
        First::End => Ok(end_line(words)),
        First::Total => total_line(alloc, words, catalog),
    }
}

fn txn_line(words: &[&[u8]]) -> Option<Line>
    ensures { (catalog : Declared) → IsRestOf catalog begins.Txn (texts words.now) (option_map line_of result) }
{
    let word = one_word(words)?;
    let txn = txn_in(word)?;
    Some(Line::Txn(txn))
}

fn full_line(words: &[&[u8]]) -> Option<Line>
    ensures { (catalog : Declared) → IsRestOf catalog begins.Full (texts words.now) (option_map line_of result) }
{
    let (first, second) = two_words(words)?;
    let site = site_in(first)?;
    let length = number_in(second, u64::MAX)?;
    Some(Line::Full { site, length })
}

fn spent_line(words: &[&[u8]]) -> Option<Line>
    ensures { (catalog : Declared) → IsRestOf catalog begins.Spent (texts words.now) (option_map line_of result) }
{
    let site = one_site(words)?;
    Some(Line::Spent(site))
}

fn down_line(words: &[&[u8]]) -> Option<Line>
    ensures { (catalog : Declared) → IsRestOf catalog begins.Down (texts words.now) (option_map line_of result) }
{
    let site = one_site(words)?;
    Some(Line::Down(site))
}

fn up_line(words: &[&[u8]]) -> Option<Line>
    ensures { (catalog : Declared) → IsRestOf catalog begins.Up (texts words.now) (option_map line_of result) }
{
    let site = one_site(words)?;
    Some(Line::Up(site))
}

fn stopped_line(words: &[&[u8]]) -> Option<Line>
    ensures { (catalog : Declared) → IsRestOf catalog begins.Stopped (texts words.now) (option_map line_of result) }
{
    let site = one_site(words)?;
    Some(Line::Stopped(site))
}

fn fault_line(words: &[&[u8]]) -> Option<Line>
    ensures { (catalog : Declared) → IsRestOf catalog begins.Fault (texts words.now) (option_map line_of result) }
{
    let site = one_site(words)?;
    Some(Line::Fault(site))
}

// The one site that the words are.
fn one_site(words: &[&[u8]]) -> Option<SiteId>
    ensures site { IfSome result (λ site. texts words.now ≡ decimal site.0 ∷ []) }
    ensures within { IfSome result (λ site. IsSite site.0) }
    ensures none { IfNone result ((n : ℕ) → IsSite n → texts words.now ≡ decimal n ∷ [] → ⊥) }
{
    let word = one_word(words)?;
    site_in(word)
}

fn started_line(words: &[&[u8]]) -> Option<Line>
    ensures { (catalog : Declared) → IsRestOf catalog begins.Started (texts words.now) (option_map line_of result) }
{
    let (first, second) = two_words(words)?;
    let site = site_in(first)?;
    let epoch = short_in(second)?;
    Some(Line::Started { site, epoch })
}

fn no_message_line(words: &[&[u8]]) -> Option<Line>
    ensures { (catalog : Declared) → IsRestOf catalog begins.No (texts words.now) (option_map line_of result) }
{
    let (first, second) = two_words(words)?;
    if !is_word(first, "message") {
        return None;
    }
    let number = number_in(second, u64::MAX)?;
    Some(Line::NoMessage(number))
}

fn sent_line(words: &[&[u8]]) -> Option<Line>
    ensures { (catalog : Declared) → IsRestOf catalog begins.Sent (texts words.now) (option_map line_of result) }
{
    let (first, second, third, last) = four_words(words)?;
    let number = number_in(first, u64::MAX)?;
    let (from, to) = way_in(second)?;
    let kind = kind_in(third)?;
    let txn = txn_in(last)?;
    Some(Line::Sent {
        number,
        from,
        to,
        kind,
        txn,
    })
}

fn order_line(alloc: Global, words: &[&[u8]]) -> Result<Option<Line>, NoMemory>
    ensures { (catalog : Declared) → IfOk result (λ found. IsRestOf catalog begins.Order (texts words.now) (option_map line_of found)) }
{
    let Some(txns) = txns_in(alloc, words)? else {
        return Ok(None);
    };
    Ok(Some(Line::Order(txns)))
}

fn committed_line(alloc: Global, words: &[&[u8]]) -> Result<Option<Line>, NoMemory>
    ensures { (catalog : Declared) → IfOk result (λ found. IsRestOf catalog begins.Committed (texts words.now) (option_map line_of found)) }
{
    let Some(txns) = txns_in(alloc, words)? else {
        return Ok(None);
    };
    Ok(Some(Line::Committed(txns)))
}

fn open_line(alloc: Global, words: &[&[u8]]) -> Result<Option<Line>, NoMemory>
    ensures { (catalog : Declared) → IfOk result (λ found. IsRestOf catalog begins.Open (texts words.now) (option_map line_of found)) }
{
    let Some(txns) = txns_in(alloc, words)? else {
        return Ok(None);
    };
    Ok(Some(Line::OpenOnes(txns)))
}

fn end_line(words: &[&[u8]]) -> Option<Line>
    ensures { (catalog : Declared) → IsRestOf catalog begins.End (texts words.now) (option_map line_of result) }
{
    if !words.is_empty() {
        return None;
    }
    Some(Line::End)
}

// The transactions that the words are.
fn txns_in(alloc: Global, words: &[&[u8]]) -> Result<Option<Vec<TxnId>>, NoMemory>
    ensures { IfOk result (λ found. MatchOption found
        ((txns : List code.TxnId) → All IsTxn txns → texts words.now ≡ map txn_text txns → ⊥)
        (λ txns. (texts words.now ≡ map txn_text txns.items) × All IsTxn txns.items)) }
{
    let mut txns = Vec::with_capacity(alloc, words.len())?;
    for word in words {
        let Some(txn) = txn_in(word) else {
            return Ok(None);
        };
        txns.push(txn)?;
    }
    Ok(Some(txns))
}
