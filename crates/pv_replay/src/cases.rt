// Polyvalues in old spellings: the count of the cases, and for each case the count of its literals, the literals and the value. They are read, and never written.
ghost use Rattle.std.specs.Prelude.{◌≡◌, ℕ, length, IfOk, IfErr};
ghost use Rattle.pv_format.specs.Form.{in_cases};
ghost use Rattle.pv_format.specs.Layout.{case_layout, literal_layout, polyvalue_then, repeated};
ghost use Rattle.pv_format.specs.OldSpelling.{SpellsCase, SpellsInCases, SpellsLiteral};
ghost use Rattle.pv_format.specs.Spelling.{SpellsEach};
ghost use Rattle.pv_fields.specs.Decoding.{Passes, Stops};
ghost use Rattle.pv_replay.specs.Faults.{fault_of};
ghost use Rattle.pv_replay.specs.Left.{HasGoneOn};

use crate::PolyError;
use crate::fields::{take_truth, take_txn};
use crate::made::{poly_of, poly_of_case};
use crate::room::with_room_for_few;
use pv_base::{Case, Literal};
use pv_bytes::Take;
use pv_tree::Poly;
use std::alloc::Global;

/// Reads a polyvalue in its old spelling, as a part of a record. A refusal is the first fault in reading order. Takes time in proportion to the bytes that it reads.
pub(crate) fn take_cases_poly(alloc: Global, take: &mut Take<'_>) -> Result<Poly<i64>, PolyError>
    ensures passes { IfOk result (λ poly. Passes (SpellsInCases poly) (polyvalue_then in_cases) take.old take.new) }
    ensures stops { IfErr result (λ e. Stops (polyvalue_then in_cases) take.old (fault_of e)) }
    ensures left { HasGoneOn take.old take.new }
{
    let place = take.place();
    let count = take.u16()?;
    if count == 1 {
        // Most values depend on no outcome, and are spelled as one case.
        let case = take_case(alloc, take)?;
        return poly_of_case(alloc, case, place);
    }
    let cases = take_counted_cases(alloc, take, count)?;
    poly_of(alloc, cases, place)
}

// Reads so many cases, whether or not they are a polyvalue.
fn take_counted_cases(
    alloc: Global,
    take: &mut Take<'_>,
    count: u16,
) -> Result<Vec<Case<i64>>, PolyError>
    ensures counted { IfOk result (λ cases. length cases.items ≡ count) }
    ensures passes { IfOk result (λ cases. Passes (SpellsEach SpellsCase cases.items) (repeated count case_layout) take.old take.new) }
    ensures stops { IfErr result (λ e. Stops (repeated count case_layout) take.old (fault_of e)) }
    ensures left { HasGoneOn take.old take.new }
{
    let mut cases = with_room_for_few(alloc, usize::from(count))?;
    while cases.len() < usize::from(count) {
        cases.push(take_case(alloc, take)?)?;
    }
    Ok(cases)
}

// Reads a case.
fn take_case(alloc: Global, take: &mut Take<'_>) -> Result<Case<i64>, PolyError>
    ensures passes { IfOk result (λ case. Passes (SpellsCase case) case_layout take.old take.new) }
    ensures stops { IfErr result (λ e. Stops case_layout take.old (fault_of e)) }
    ensures left { HasGoneOn take.old take.new }
{
    let count = take.u8()?;
    let when = take_literals(alloc, take, count)?;
    let value = take.i64()?;
    Ok(Case { when, value })
}

// Reads so many literals.
fn take_literals(alloc: Global, take: &mut Take<'_>, count: u8) -> Result<Vec<Literal>, PolyError>
    ensures counted { IfOk result (λ when. length when.items ≡ count) }
    ensures passes { IfOk result (λ when. Passes (SpellsEach SpellsLiteral when.items) (repeated count literal_layout) take.old take.new) }
    ensures stops { IfErr result (λ e. Stops (repeated count literal_layout) take.old (fault_of e)) }
    ensures left { HasGoneOn take.old take.new }
{
    let mut when = with_room_for_few(alloc, usize::from(count))?;
    while when.len() < usize::from(count) {
        when.push(take_literal(take)?)?;
    }
    Ok(when)
}

// Reads a literal.
fn take_literal(take: &mut Take<'_>) -> Result<Literal, PolyError>
    ensures passes { IfOk result (λ literal. Passes (SpellsLiteral literal) literal_layout take.old take.new) }
    ensures stops { IfErr result (λ e. Stops literal_layout take.old (fault_of e)) }
    ensures left { HasGoneOn take.old take.new }
{
    let commits = take_truth(take)?;
    let txn = take_txn(take)?;
    Ok(Literal { txn, commits })
}
