// The lines whose JSON has more than two members.
ghost use Rattle.std.specs.Prelude.{◌≡◌, ◌<◌, length, IfOk};
ghost use Rattle.pv_report.specs.LineData.{refused_by_doubt, refused_by_holder, refused_by_journal, refused_by_limit, refused_by_site, sent_data};
ghost use Rattle.pv_report.specs.NamesArePlain.{HasPlainName};
ghost use Rattle.pv_script.specs.LineView.{message_kind_of};
ghost use Rattle.serde_json.specs.View.{view};

use crate::json_values::{name_value, txn_value};
use pv_base::{Catalog, ItemId, NoMemory, SiteId, TxnId};
use pv_script::MessageKind;
use serde_json::{Map, Value, put};
use std::alloc::Global;

// A transaction that is refused since another one holds an item.
pub(crate) fn refused_by_holder(
    alloc: Global,
    txn: TxnId,
    site: SiteId,
    item: ItemId,
    holder: TxnId,
    catalog: &Catalog,
) -> Result<Value, NoMemory>
    requires { item.0 < length catalog.now.items }
    ensures value { IfOk result (λ value. view value ≡ refused_by_holder catalog.now txn site.0 item.0 holder) }
    ensures plain { IfOk result (λ _. HasPlainName catalog.now item.0) }
{
    let mut members = Map::new(alloc);
    put(
        &mut members,
        alloc,
        "cause",
        Value::try_from_str(alloc, "conflict")?,
    )?;
    put(&mut members, alloc, "holder", txn_value(alloc, holder)?)?;
    put(
        &mut members,
        alloc,
        "item",
        name_value(alloc, item, catalog)?,
    )?;
    put(&mut members, alloc, "refuse", txn_value(alloc, txn)?)?;
    put(&mut members, alloc, "site", Value::from(site.0))?;
    Ok(Value::Object(members))
}

// A transaction that is refused since its values name too many outcomes.
pub(crate) fn refused_by_limit(alloc: Global, txn: TxnId, names: u32) -> Result<Value, NoMemory>
    ensures { IfOk result (λ value. view value ≡ refused_by_limit txn names) }
{
    let mut members = Map::new(alloc);
    put(
        &mut members,
        alloc,
        "cause",
        Value::try_from_str(alloc, "outcome-limit")?,
    )?;
    put(&mut members, alloc, "names", Value::from(names))?;
    put(&mut members, alloc, "refuse", txn_value(alloc, txn)?)?;
    Ok(Value::Object(members))
}

// A transaction that is refused since an item isn't certain that has to be.
pub(crate) fn refused_by_doubt(
    alloc: Global,
    txn: TxnId,
    item: ItemId,
    names: u32,
    catalog: &Catalog,
) -> Result<Value, NoMemory>
    requires { item.0 < length catalog.now.items }
    ensures value { IfOk result (λ value. view value ≡ refused_by_doubt catalog.now txn item.0 names) }
    ensures plain { IfOk result (λ _. HasPlainName catalog.now item.0) }
{
    let mut members = Map::new(alloc);
    put(
        &mut members,
        alloc,
        "cause",
        Value::try_from_str(alloc, "uncertain")?,
    )?;
    put(
        &mut members,
        alloc,
        "item",
        name_value(alloc, item, catalog)?,
    )?;
    put(&mut members, alloc, "names", Value::from(names))?;
    put(&mut members, alloc, "refuse", txn_value(alloc, txn)?)?;
    Ok(Value::Object(members))
}

// A transaction that is refused because of a site.
pub(crate) fn refused_by_site(
    alloc: Global,
    cause: &str,
    txn: TxnId,
    site: SiteId,
) -> Result<Value, NoMemory>
    ensures { IfOk result (λ value. view value ≡ refused_by_site cause.now txn site.0) }
{
    let mut members = Map::new(alloc);
    put(
        &mut members,
        alloc,
        "cause",
        Value::try_from_str(alloc, cause)?,
    )?;
    put(&mut members, alloc, "refuse", txn_value(alloc, txn)?)?;
    put(&mut members, alloc, "site", Value::from(site.0))?;
    Ok(Value::Object(members))
}

// A transaction that is refused since a journal has no room.
pub(crate) fn refused_by_journal(
    alloc: Global,
    txn: TxnId,
    site: SiteId,
    length: u64,
) -> Result<Value, NoMemory>
    ensures { IfOk result (λ value. view value ≡ refused_by_journal txn site.0 length) }
{
    let mut members = Map::new(alloc);
    put(
        &mut members,
        alloc,
        "cause",
        Value::try_from_str(alloc, "journal-full")?,
    )?;
    put(&mut members, alloc, "length", Value::from(length))?;
    put(&mut members, alloc, "refuse", txn_value(alloc, txn)?)?;
    put(&mut members, alloc, "site", Value::from(site.0))?;
    Ok(Value::Object(members))
}

// A message that was sent.
pub(crate) fn sent(
    alloc: Global,
    number: u64,
    from: SiteId,
    to: SiteId,
    kind: MessageKind,
    txn: TxnId,
) -> Result<Value, NoMemory>
    ensures { IfOk result (λ value. view value ≡ sent_data number from.0 to.0 (message_kind_of kind) txn) }
{
    let mut members = Map::new(alloc);
    put(&mut members, alloc, "from", Value::from(from.0))?;
    put(
        &mut members,
        alloc,
        "kind",
        Value::try_from_str(alloc, kind.name())?,
    )?;
    put(&mut members, alloc, "sent", Value::from(number))?;
    put(&mut members, alloc, "to", Value::from(to.0))?;
    put(&mut members, alloc, "txn", txn_value(alloc, txn)?)?;
    Ok(Value::Object(members))
}
