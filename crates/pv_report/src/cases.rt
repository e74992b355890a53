// An item's cases.
ghost use Rattle.std.specs.Prelude.{◌≡◌, ◌++◌, codes, flat_map, if◌then◌else◌, OnErr, OnOk};
ghost use Rattle.pv_protocol.specs.LineText.{case_text, cases_text, literal_text, spaced, when_text};
ghost use Rattle.pv_report.specs.StillHeld.{StillHeld};

use crate::pieces::push_signed;
use pv_base::{Case, Literal, NoMemory, push_txn};

/// Puts the cases of a value, parted by ` ; `, after what the buffer holds. After an error the buffer is as it was. Takes time in proportion to their text.
pub fn push_value(text: &mut Vec<u8>, cases: &[Case<i64>]) -> Result<(), NoMemory>
    ensures text { OnOk result (text.new.items ≡ text.old.items ++ cases_text cases.now) }
    ensures unchanged { OnErr result (text.new.items ≡ text.old.items) }
{
    let before = text.len();
    let pushed = push_cases(text, cases);
    // Cases that find no memory leave a part of them behind.
    if pushed.is_err() {
        text.truncate(before);
    }
    pushed
}

// The cases, parted by ` ; `.
pub(crate) fn push_cases(text: &mut Vec<u8>, cases: &[Case<i64>]) -> Result<(), NoMemory>
    ensures text { OnOk result (text.new.items ≡ text.old.items ++ cases_text cases.now) }
    ensures held { StillHeld text.old.items text.new.items }
{
    match cases.split_first() {
        None => Ok(()),
        Some((first, others)) => {
            push_case(text, first)?;
            push_others(text, others)
        }
    }
}

// Each case, with ` ; ` before it.
fn push_others(text: &mut Vec<u8>, cases: &[Case<i64>]) -> Result<(), NoMemory>
    ensures text { OnOk result (text.new.items ≡ text.old.items ++ flat_map (λ case. codes " ; " ++ case_text case) cases.now) }
    ensures held { StillHeld text.old.items text.new.items }
{
    for case in cases {
        text.extend_from_slice(b" ; ")?;
        push_case(text, case)?;
    }
    Ok(())
}

// One case.
fn push_case(text: &mut Vec<u8>, case: &Case<i64>) -> Result<(), NoMemory>
    ensures text { OnOk result (text.new.items ≡ text.old.items ++ case_text case.now) }
    ensures held { StillHeld text.old.items text.new.items }
{
    push_signed(text, case.value as i128)?;
    push_when(text, &case.when)
}

// A condition, if there is one.
fn push_when(text: &mut Vec<u8>, literals: &[Literal]) -> Result<(), NoMemory>
    ensures text { OnOk result (text.new.items ≡ text.old.items ++ when_text literals.now) }
    ensures held { StillHeld text.old.items text.new.items }
{
    if literals.is_empty() {
        return Ok(());
    }
    text.extend_from_slice(b" if")?;
    push_literals(text, literals)
}

// Each literal, with a space before it.
fn push_literals(text: &mut Vec<u8>, literals: &[Literal]) -> Result<(), NoMemory>
    ensures text { OnOk result (text.new.items ≡ text.old.items ++ spaced literal_text literals.now) }
    ensures held { StillHeld text.old.items text.new.items }
{
    for literal in literals {
        text.extend_from_slice(b" ")?;
        push_literal(text, *literal)?;
    }
    Ok(())
}

// The transaction, with `+` before it where it commits, and else `-`.
pub(crate) fn push_literal(text: &mut Vec<u8>, literal: Literal) -> Result<(), NoMemory>
    ensures text { OnOk result (text.new.items ≡ text.old.items ++ literal_text literal) }
    ensures held { StillHeld text.old.items text.new.items }
{
    text.extend_from_slice(sign(literal.commits))?;
    push_txn(text, literal.txn)
}

// `+` or `-`.
fn sign(commits: bool) -> &'static [u8]
    ensures { result.now ≡ (if commits then codes "+" else codes "-") }
{
    if commits { b"+" } else { b"-" }
}
