// What an audit found, as text. After an error what the buffer holds is of no use.
ghost use Rattle.std.specs.Prelude.{◌≡◌, ◌++◌, codes, decimal, OnOk};
ghost use Rattle.pv_audit.specs.VerdictView.{verdict_of};
ghost use Rattle.pv_audit_run.specs.VerdictText.{verdict_text};
ghost use Rattle.pv_base.specs.Txn.{txn_text};
ghost use Rattle.pv_model.specs.ReplyText.{line_feed};
ghost use Rattle.pv_protocol.specs.LineText.{name_of, spaced};

use pv_audit::Verdict;
use pv_base::{Catalog, ItemId, NoMemory, TxnId, push_number, push_txn};

/// Puts the verdict on a trace with this catalog after what the buffer holds, with its line feed.
#[tactic(auto, unfolding(crate::specs::VerdictText::verdict_text))]
pub fn push_verdict(
    text: &mut Vec<u8>,
    verdict: &Verdict,
    catalog: &Catalog,
) -> Result<(), NoMemory>
    ensures { OnOk result (text.new.items ≡ text.old.items ++ verdict_text catalog.now (verdict_of verdict.now)) }
{
    match verdict {
        Verdict::Yes(reports) => push_yes(text, *reports),
        Verdict::NoOrder { report, txn } => push_no_order(text, *report, *txn),
        Verdict::NoItem { report, item, yes } => push_no_item(text, *report, *item, yes, catalog),
        Verdict::Limit { report, names } => push_limit(text, *report, *names),
    }
}

fn push_yes(text: &mut Vec<u8>, reports: u32) -> Result<(), NoMemory>
    ensures { OnOk result (text.new.items ≡ text.old.items ++ (codes "yes " ++ (decimal reports ++ line_feed))) }
{
    text.extend_from_slice(b"yes ")?;
    push_number(text, reports as u64)?;
    text.extend_from_slice(b"\n")?;
    Ok(())
}

fn push_no_order(text: &mut Vec<u8>, report: u32, txn: TxnId) -> Result<(), NoMemory>
    ensures { OnOk result (text.new.items ≡ text.old.items ++ (codes "no " ++ (decimal report ++ (codes " order " ++ (txn_text txn ++ line_feed))))) }
{
    text.extend_from_slice(b"no ")?;
    push_number(text, report as u64)?;
    text.extend_from_slice(b" order ")?;
    push_txn(text, txn)?;
    text.extend_from_slice(b"\n")?;
    Ok(())
}

fn push_no_item(
    text: &mut Vec<u8>,
    report: u32,
    item: ItemId,
    yes: &[TxnId],
    catalog: &Catalog,
) -> Result<(), NoMemory>
    ensures { OnOk result (text.new.items ≡ text.old.items ++ (codes "no " ++ (decimal report ++ (codes " item " ++ (name_of catalog.now item.0 ++ (spaced txn_text yes.now ++ line_feed)))))) }
{
    text.extend_from_slice(b"no ")?;
    push_number(text, report as u64)?;
    text.extend_from_slice(b" item ")?;
    push_name(text, item, catalog)?;
    push_txns(text, yes)?;
    text.extend_from_slice(b"\n")?;
    Ok(())
}

fn push_limit(text: &mut Vec<u8>, report: u32, names: u32) -> Result<(), NoMemory>
    ensures { OnOk result (text.new.items ≡ text.old.items ++ (codes "limit " ++ (decimal report ++ (codes " " ++ (decimal names ++ line_feed))))) }
{
    text.extend_from_slice(b"limit ")?;
    push_number(text, report as u64)?;
    text.extend_from_slice(b" ")?;
    push_number(text, names as u64)?;
    text.extend_from_slice(b"\n")?;
    Ok(())
}

// The item's name, where there is such an item.
fn push_name(text: &mut Vec<u8>, item: ItemId, catalog: &Catalog) -> Result<(), NoMemory>
    ensures { OnOk result (text.new.items ≡ text.old.items ++ name_of catalog.now item.0) }
{
    if item.0 >= catalog.len() {
        return Ok(());
    }
    Ok(text.extend_from_slice(catalog.name(item))?)
}

// Each transaction, with a space before it.
fn push_txns(text: &mut Vec<u8>, txns: &[TxnId]) -> Result<(), NoMemory>
    ensures { OnOk result (text.new.items ≡ text.old.items ++ spaced txn_text txns.now) }
{
    for txn in txns {
        text.extend_from_slice(b" ")?;
        push_txn(text, *txn)?;
    }
    Ok(())
}
