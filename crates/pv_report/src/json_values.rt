// The values that stand in the JSON of lines.
ghost use Rattle.std.specs.Prelude.{◌≡◌, ◌<◌, true, length, IfOk};
ghost use Rattle.pv_protocol.specs.LineText.{name_of};
ghost use Rattle.pv_report.specs.LineData.{array_of, case_data, literal_data, name_data, one, reply_data, sum_data, two, txn_data};
ghost use Rattle.pv_report.specs.NamesArePlain.{HasPlainName};
ghost use Rattle.pv_report.specs.Shown.{is_plain};
ghost use Rattle.serde_json.specs.Data.{string};
ghost use Rattle.serde_json.specs.View.{view};

use crate::answers::decline_text;
use crate::cases::push_literal;
use crate::pieces::push_signed;
use pv_ast::Reply;
use pv_base::{Case, Catalog, ItemId, Literal, NoMemory, TxnId, print_txn};
use serde_json::{Map, Value, put};
use std::alloc::Global;

// An object of one member.
pub(crate) fn one(alloc: Global, key: &str, value: Value) -> Result<Value, NoMemory>
    ensures { IfOk result (λ object. view object ≡ one key.now (view value)) }
{
    let mut members = Map::new(alloc);
    put(&mut members, alloc, key, value)?;
    Ok(Value::Object(members))
}

// An object of two members.
pub(crate) fn two(
    alloc: Global,
    key: &str,
    value: Value,
    other_key: &str,
    other: Value,
) -> Result<Value, NoMemory>
    ensures { IfOk result (λ object. view object ≡ two key.now (view value) other_key.now (view other)) }
{
    let mut members = Map::new(alloc);
    put(&mut members, alloc, key, value)?;
    put(&mut members, alloc, other_key, other)?;
    Ok(Value::Object(members))
}

// A text that needs no escape.
fn plain_text(alloc: Global, text: &[u8]) -> Result<Value, NoMemory>
    requires { is_plain text.now ≡ true }
    ensures { IfOk result (λ value. view value ≡ string text.now) }
{
    match str::from_utf8(text) {
        Ok(text) => Ok(Value::try_from_str(alloc, text)?),
        Err(_) => unreachable!(),
    }
}

// A transaction.
pub(crate) fn txn_value(alloc: Global, txn: TxnId) -> Result<Value, NoMemory>
    ensures { IfOk result (λ value. view value ≡ txn_data txn) }
{
    let text = print_txn(alloc, txn)?;
    plain_text(alloc, &text)
}

// An item's name.
pub(crate) fn name_value(alloc: Global, item: ItemId, catalog: &Catalog) -> Result<Value, NoMemory>
    requires { item.0 < length catalog.now.items }
    ensures value { IfOk result (λ value. view value ≡ name_data catalog.now item.0) }
    ensures plain { HasPlainName catalog.now item.0 }
{
    plain_text(alloc, plain_name(item, catalog))
}

// The item's name, which needs no escape.
fn plain_name(item: ItemId, catalog: &Catalog) -> &[u8]
    requires { item.0 < length catalog.now.items }
    ensures name { result.now ≡ name_of catalog.now item.0 }
    ensures plain { is_plain result.now ≡ true }
{
    catalog.name(item)
}

// Each transaction.
pub(crate) fn txns_value(alloc: Global, txns: &[TxnId]) -> Result<Value, NoMemory>
    ensures { IfOk result (λ value. view value ≡ array_of txn_data txns.now) }
{
    let mut values = Vec::new(alloc);
    for txn in txns {
        values.push(txn_value(alloc, *txn)?)?;
    }
    Ok(Value::Array(values))
}

// Each reply.
pub(crate) fn replies_value(alloc: Global, replies: &[Reply]) -> Result<Value, NoMemory>
    ensures { IfOk result (λ value. view value ≡ array_of reply_data replies.now) }
{
    let mut values = Vec::new(alloc);
    for reply in replies {
        values.push(reply_value(alloc, *reply)?)?;
    }
    Ok(Value::Array(values))
}

// One reply: a number, or else a text.
fn reply_value(alloc: Global, reply: Reply) -> Result<Value, NoMemory>
    ensures { IfOk result (λ value. view value ≡ reply_data reply) }
{
    match reply {
        Reply::Value(value) => Ok(Value::from(value)),
        Reply::Nothing => Ok(Value::try_from_str(alloc, "nothing")?),
        Reply::Declined(decline) => plain_text(alloc, decline_text(decline)),
    }
}

// Each sum.
pub(crate) fn sums_value(alloc: Global, sums: &[i128]) -> Result<Value, NoMemory>
    ensures { IfOk result (λ value. view value ≡ array_of sum_data sums.now) }
{
    let mut values = Vec::new(alloc);
    for sum in sums {
        values.push(sum_value(alloc, *sum)?)?;
    }
    Ok(Value::Array(values))
}

// One sum, as a text.
fn sum_value(alloc: Global, sum: i128) -> Result<Value, NoMemory>
    ensures { IfOk result (λ value. view value ≡ sum_data sum) }
{
    let mut text = Vec::new(alloc);
    push_signed(&mut text, sum)?;
    plain_text(alloc, &text)
}

// Each case.
pub(crate) fn cases_value(alloc: Global, cases: &[Case<i64>]) -> Result<Value, NoMemory>
    ensures { IfOk result (λ value. view value ≡ array_of case_data cases.now) }
{
    let mut values = Vec::new(alloc);
    for case in cases {
        values.push(case_value(alloc, case)?)?;
    }
    Ok(Value::Array(values))
}

// One case: its value, and the literals of its condition.
fn case_value(alloc: Global, case: &Case<i64>) -> Result<Value, NoMemory>
    ensures { IfOk result (λ value. view value ≡ case_data case.now) }
{
    let when = literals_value(alloc, &case.when)?;
    two(alloc, "value", Value::from(case.value), "when", when)
}

// Each literal.
fn literals_value(alloc: Global, literals: &[Literal]) -> Result<Value, NoMemory>
    ensures { IfOk result (λ value. view value ≡ array_of literal_data literals.now) }
{
    let mut values = Vec::new(alloc);
    for literal in literals {
        values.push(literal_value(alloc, *literal)?)?;
    }
    Ok(Value::Array(values))
}

// One literal, with its sign.
fn literal_value(alloc: Global, literal: Literal) -> Result<Value, NoMemory>
    ensures { IfOk result (λ value. view value ≡ literal_data literal) }
{
    let mut text = Vec::new(alloc);
    push_literal(&mut text, literal)?;
    plain_text(alloc, &text)
}
