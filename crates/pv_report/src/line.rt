// A line as text.
ghost use Rattle.std.specs.Prelude.{◌≡◌, ◌++◌, codes, decimal, IfOk, OnErr, OnOk};
ghost use Rattle.pv_base.specs.Txn.{txn_text};
ghost use Rattle.pv_protocol.specs.LineText.{cause_text, kind_text, line_text, name_of, spaced, words_of};
ghost use Rattle.pv_protocol.specs.State.{conflict, uncertain};
ghost use Rattle.pv_report.specs.NamesOnlyItems.{HasItem, NamesOnlyItems};
ghost use Rattle.pv_report.specs.StillHeld.{StillHeld};
ghost use Rattle.pv_script.specs.LineView.{message_kind_of, line_of};

use crate::answers::{push_replies, push_sums};
use crate::cases::push_cases;
use crate::pieces::{push_name, push_numbered, push_txns, push_words};
use pv_base::{Catalog, ItemId, NoMemory, SiteId, TxnId, push_number, push_txn};
use pv_script::{Line, MessageKind};
use std::alloc::Global;

/// The line as text, with its line feed. Items stand there by the names that they have in the catalog. Takes time in proportion to the
/// text.
pub fn print(alloc: Global, line: &Line, catalog: &Catalog) -> Result<Vec<u8>, NoMemory>
    requires items { NamesOnlyItems catalog.now (line_of line.now) }
    ensures { IfOk result (λ text. text.items ≡ line_text catalog.now (line_of line.now)) }
{
    let mut text = Vec::new(alloc);
    push_line(&mut text, line, catalog)?;
    Ok(text)
}

/// Puts the line, as [`print`] prints it, after what the buffer holds. After an error the buffer is as it was. Takes time in proportion to
/// the line's text.
pub fn push_line(text: &mut Vec<u8>, line: &Line, catalog: &Catalog) -> Result<(), NoMemory>
    requires items { NamesOnlyItems catalog.now (line_of line.now) }
    ensures text { OnOk result (text.new.items ≡ text.old.items ++ line_text catalog.now (line_of line.now)) }
    ensures unchanged { OnErr result (text.new.items ≡ text.old.items) }
{
    let before = text.len();
    let pushed = push_whole(text, line, catalog);
    // A line that finds no memory leaves a part of it behind.
    if pushed.is_err() {
        text.truncate(before);
    }
    pushed
}

// The line with its line feed. After an error the buffer still begins with what it held.
fn push_whole(text: &mut Vec<u8>, line: &Line, catalog: &Catalog) -> Result<(), NoMemory>
    requires items { NamesOnlyItems catalog.now (line_of line.now) }
    ensures text { OnOk result (text.new.items ≡ text.old.items ++ line_text catalog.now (line_of line.now)) }
    ensures held { StillHeld text.old.items text.new.items }
{
    push_words_of(text, line, catalog)?;
    text.extend_from_slice(b"\n")?;
    Ok(())
}

// The line without its line feed. After an error the buffer still begins with what it held.
#[tactic(auto, unfolding(pv_protocol::specs::LineText::words_of))]
fn push_words_of(text: &mut Vec<u8>, line: &Line, catalog: &Catalog) -> Result<(), NoMemory>
    requires items { NamesOnlyItems catalog.now (line_of line.now) }
    ensures text { OnOk result (text.new.items ≡ text.old.items ++ words_of catalog.now (line_of line.now)) }
    ensures held { StillHeld text.old.items text.new.items }
{
    match line {
        Line::Txn(txn) => push_with_txn(text, b"txn ", *txn),
        Line::Commit { txn, replies } => {
            push_with_txn(text, b"commit ", *txn)?;
            push_replies(text, replies)
        }
        Line::RefuseConflict {
            txn,
            site,
            item,
            holder,
        } => {
            push_refused(text, *txn)?;
            push_conflict(text, *site, *item, *holder, catalog)
        }
        Line::RefuseLimit { txn, names } => {
            push_refused(text, *txn)?;
            push_numbered(text, b"outcome-limit", *names as u64)
        }
        Line::RefuseUncertain { txn, item, names } => {
            push_refused(text, *txn)?;
            push_uncertain(text, *item, *names, catalog)
        }
        Line::RefuseExpired { txn, site } => {
            push_refused(text, *txn)?;
            push_numbered(text, b"expired", site.0 as u64)
        }
        Line::RefuseLost { txn, site } => {
            push_refused(text, *txn)?;
            push_numbered(text, b"grant-lost", site.0 as u64)
        }
        Line::RefuseFull { txn, site, length } => {
            push_refused(text, *txn)?;
            push_two_numbers(text, b"journal-full ", site.0 as u64, *length)
        }
        Line::Full { site, length } => push_two_numbers(text, b"full ", site.0 as u64, *length),
        Line::Spent(site) => push_numbered(text, b"spent", site.0 as u64),
        Line::Down(site) => push_numbered(text, b"down", site.0 as u64),
        Line::Up(site) => push_numbered(text, b"up", site.0 as u64),
        Line::Stopped(site) => push_numbered(text, b"stopped", site.0 as u64),
        Line::Fault(site) => push_numbered(text, b"fault", site.0 as u64),
        Line::Started { site, epoch } => {
            push_two_numbers(text, b"started ", site.0 as u64, *epoch as u64)
        }
        Line::NoMessage(number) => push_numbered(text, b"no message", *number),
        Line::Sent {
            number,
            from,
            to,
            kind,
            txn,
        } => push_sent(text, *number, *from, *to, *kind, *txn),
        Line::Order(txns) => push_list(text, b"order", txns),
        Line::Committed(txns) => push_list(text, b"committed", txns),
        Line::OpenOnes(txns) => push_list(text, b"open", txns),
        Line::Item { item, cases } => {
            push_item(text, b"item ", *item, catalog)?;
            text.extend_from_slice(b" ")?;
            push_cases(text, cases)
        }
        Line::ItemLocked { item, txn } => {
            push_item(text, b"item ", *item, catalog)?;
            push_with_txn(text, b" locked ", *txn)
        }
        Line::ItemDown(item) => {
            push_item(text, b"item ", *item, catalog)?;
            push_words(text, b" down")
        }
        Line::End => push_words(text, b"end"),
        Line::Total(sums) => {
            text.extend_from_slice(b"total")?;
            push_sums(text, sums)
        }
        Line::TotalLocked(item) => push_item(text, b"total locked ", *item, catalog),
        Line::TotalDown(site) => push_numbered(text, b"total down", site.0 as u64),
        Line::TotalLimit(names) => push_numbered(text, b"total outcome-limit", *names as u64),
    }
}

// Words and a transaction.
fn push_with_txn(text: &mut Vec<u8>, words: &[u8], txn: TxnId) -> Result<(), NoMemory>
    ensures text { OnOk result (text.new.items ≡ text.old.items ++ (words.now ++ txn_text txn)) }
    ensures held { StillHeld text.old.items text.new.items }
{
    text.extend_from_slice(words)?;
    push_txn(text, txn)
}

// Words, a number, a space and a number.
fn push_two_numbers(
    text: &mut Vec<u8>,
    words: &[u8],
    first: u64,
    second: u64,
) -> Result<(), NoMemory>
    ensures text { OnOk result (text.new.items ≡ text.old.items ++ (words.now ++ (decimal first ++ (codes " " ++ decimal second)))) }
    ensures held { StillHeld text.old.items text.new.items }
{
    text.extend_from_slice(words)?;
    push_number(text, first)?;
    text.extend_from_slice(b" ")?;
    push_number(text, second)
}

// `refuse T ` before the cause.
fn push_refused(text: &mut Vec<u8>, txn: TxnId) -> Result<(), NoMemory>
    ensures text { OnOk result (text.new.items ≡ text.old.items ++ (codes "refuse " ++ (txn_text txn ++ codes " "))) }
    ensures held { StillHeld text.old.items text.new.items }
{
    push_with_txn(text, b"refuse ", txn)?;
    push_words(text, b" ")
}

// `conflict SITE ITEM TXN`
fn push_conflict(
    text: &mut Vec<u8>,
    site: SiteId,
    item: ItemId,
    holder: TxnId,
    catalog: &Catalog,
) -> Result<(), NoMemory>
    requires { HasItem catalog.now item.0 }
    ensures text { OnOk result (text.new.items ≡ text.old.items ++ cause_text catalog.now (conflict site.0 item.0 holder)) }
    ensures held { StillHeld text.old.items text.new.items }
{
    text.extend_from_slice(b"conflict ")?;
    push_number(text, site.0 as u64)?;
    text.extend_from_slice(b" ")?;
    push_name(text, item, catalog)?;
    push_with_txn(text, b" ", holder)
}

// `uncertain ITEM NAMES`
fn push_uncertain(
    text: &mut Vec<u8>,
    item: ItemId,
    names: u32,
    catalog: &Catalog,
) -> Result<(), NoMemory>
    requires { HasItem catalog.now item.0 }
    ensures text { OnOk result (text.new.items ≡ text.old.items ++ cause_text catalog.now (uncertain item.0 names)) }
    ensures held { StillHeld text.old.items text.new.items }
{
    text.extend_from_slice(b"uncertain ")?;
    push_name(text, item, catalog)?;
    text.extend_from_slice(b" ")?;
    push_number(text, names as u64)
}

// `sent NUMBER FROM>TO KIND TXN`
fn push_sent(
    text: &mut Vec<u8>,
    number: u64,
    from: SiteId,
    to: SiteId,
    kind: MessageKind,
    txn: TxnId,
) -> Result<(), NoMemory>
    ensures text { OnOk result (text.new.items ≡ text.old.items ++ (codes "sent " ++ (decimal number ++ (codes " " ++ (decimal from.0
        ++ (codes ">" ++ (decimal to.0 ++ (codes " " ++ (kind_text (message_kind_of kind) ++ (codes " " ++ txn_text txn)))))))))) }
    ensures held { StillHeld text.old.items text.new.items }
{
    push_two_numbers(text, b"sent ", number, from.0 as u64)?;
    text.extend_from_slice(b">")?;
    push_number(text, to.0 as u64)?;
    text.extend_from_slice(b" ")?;
    text.extend_from_slice(kind.name().as_bytes())?;
    push_with_txn(text, b" ", txn)
}

// A word, and then each transaction.
fn push_list(text: &mut Vec<u8>, word: &[u8], txns: &[TxnId]) -> Result<(), NoMemory>
    ensures text { OnOk result (text.new.items ≡ text.old.items ++ (word.now ++ spaced txn_text txns.now)) }
    ensures held { StillHeld text.old.items text.new.items }
{
    text.extend_from_slice(word)?;
    push_txns(text, txns)
}

// Words and an item's name.
fn push_item(
    text: &mut Vec<u8>,
    words: &[u8],
    item: ItemId,
    catalog: &Catalog,
) -> Result<(), NoMemory>
    requires { HasItem catalog.now item.0 }
    ensures text { OnOk result (text.new.items ≡ text.old.items ++ (words.now ++ name_of catalog.now item.0)) }
    ensures held { StillHeld text.old.items text.new.items }
{
    text.extend_from_slice(words)?;
    push_name(text, item, catalog)
}
