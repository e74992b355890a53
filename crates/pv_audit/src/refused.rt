// A printed refusal, read by its words.
ghost use Rattle.std.specs.Prelude.{◌≡◌, ◌∷◌, []};
ghost use Rattle.std.specs.Option.{option_map};
ghost use Rattle.pv_audit.specs.Printed.{IsTxn};
ghost use Rattle.pv_audit.specs.Words.{IsCauseLineOf, IsRestOf};
ghost use Rattle.pv_audit.specs.declared.first.First.TheVariants as begins;
ghost use Rattle.pv_base.specs.Catalog.{Declared};
ghost use Rattle.pv_script.specs.LineFaults.{texts};
ghost use Rattle.pv_script.specs.LineView.{line_of};

use crate::parts::{four_words, is_word, split_word, three_words, two_words};
use crate::words::{number_in, short_in, site_in, txn_in};
use pv_base::{Catalog, TxnId};
use pv_script::Line;

/// The line that begins with `refuse` and has these words behind that.
pub fn refuse_line(words: &[&[u8]], catalog: &Catalog) -> Option<Line>
    ensures { IsRestOf catalog.now begins.Refuse (texts words.now) (option_map line_of result) }
{
    let (word, rest) = split_word(words)?;
    let txn = txn_in(word)?;
    cause_line(txn, rest, catalog)
}

// The line that refuses the transaction, with a cause of these words.
fn cause_line(txn: TxnId, words: &[&[u8]], catalog: &Catalog) -> Option<Line>
    ensures { IsCauseLineOf catalog.now txn (texts words.now) (option_map line_of result) }
{
    if let Some((cause, number)) = two_words(words) {
        return refused_by_number(txn, cause, number);
    }
    if let Some((cause, first, second)) = three_words(words) {
        return refused_by_two(txn, cause, first, second, catalog);
    }
    let (cause, site, item, holder) = four_words(words)?;
    conflict_line(txn, cause, site, item, holder, catalog)
}

fn conflict_line(
    txn: TxnId,
    cause: &[u8],
    site: &[u8],
    item: &[u8],
    holder: &[u8],
    catalog: &Catalog,
) -> Option<Line>
    ensures { IsCauseLineOf catalog.now txn (cause.now ∷ (site.now ∷ (item.now ∷ (holder.now ∷ [])))) (option_map line_of result) }
{
    if !is_word(cause, "conflict") {
        return None;
    }
    let site = site_in(site)?;
    let item = catalog.find(item)?;
    let holder = txn_in(holder)?;
    Some(Line::RefuseConflict {
        txn,
        site,
        item,
        holder,
    })
}

fn refused_by_two(
    txn: TxnId,
    cause: &[u8],
    first: &[u8],
    second: &[u8],
    catalog: &Catalog,
) -> Option<Line>
    ensures { IsCauseLineOf catalog.now txn (cause.now ∷ (first.now ∷ (second.now ∷ []))) (option_map line_of result) }
{
    if is_word(cause, "uncertain") {
        let item = catalog.find(first)?;
        let names = short_in(second)?;
        return Some(Line::RefuseUncertain { txn, item, names });
    }
    if is_word(cause, "journal-full") {
        let site = site_in(first)?;
        let length = number_in(second, u64::MAX)?;
        return Some(Line::RefuseFull { txn, site, length });
    }
    None
}

fn refused_by_number(txn: TxnId, cause: &[u8], number: &[u8]) -> Option<Line>
    ensures { (catalog : Declared) → IsCauseLineOf catalog txn (cause.now ∷ (number.now ∷ [])) (option_map line_of result) }
{
    if is_word(cause, "outcome-limit") {
        let names = short_in(number)?;
        return Some(Line::RefuseLimit { txn, names });
    }
    if is_word(cause, "expired") {
        let site = site_in(number)?;
        return Some(Line::RefuseExpired { txn, site });
    }
    if is_word(cause, "grant-lost") {
        let site = site_in(number)?;
        return Some(Line::RefuseLost { txn, site });
    }
    None
}
