// Polyvalues as bytes: the count of the leaves, and the tree from its root on, each test once.
ghost use Rattle.std.specs.Prelude.{◌≡◌, ◌++◌, ◌∷◌, [], ◌≤◌, ℕ, ℤ, List, map, length, true, IfOk, IfErr, OnOk};
ghost use Rattle.std.specs.Io.{StartsWith};
ghost use Rattle.pv_base.specs.Answer.{Answers};
ghost use Rattle.pv_base.specs.declared.limits.TheConstants.{HELD_NAMES};
ghost use Rattle.pv_base.specs.Polyvalue as model;
ghost use Rattle.pv_format.specs.FirstFault.{TreeFault};
ghost use Rattle.pv_format.specs.Form.{in_sure_tree, in_tree};
ghost use Rattle.pv_format.specs.Layout.{node_layout, polyvalue_then};
ghost use Rattle.pv_format.specs.PolyvalueSpelling.{BeginsWith, SpellsNode, SpellsPolyvalue, SpellsSure};
ghost use Rattle.pv_fields.specs.Decoding.{Passes, Stops};
ghost use Rattle.pv_replay.specs.Faults.{fault_of};
ghost use Rattle.pv_replay.specs.Left.{HasGoneOn};
ghost use Rattle.pv_replay.specs.Nodes.{begun, leaf_bytes, leaves_bytes, test_bytes, tests_bytes, IsNodeRead};

use crate::PolyError;
use crate::fields::{take_txn, txn_bytes};
use crate::made::{poly_of, poly_of_case};
use crate::room::with_room;
use pv_base::{Case, HELD_NAMES, Literal, NoMemory, TxnId};
use pv_bytes::{Put, Take};
use pv_tree::Poly;
use std::alloc::Global;

// How many bytes a leaf takes.
const LEAF: usize = 9;

/// Writes a polyvalue that some bytes spell. Takes time in proportion to its literals. After a refusal the `Put` holds a part of them, and is to
/// be dropped.
pub fn put_poly(put: &mut Put, value: &Poly<i64>) -> Result<(), NoMemory>
    requires { (bytes : List ℕ) × SpellsPolyvalue value.now bytes }
    ensures written { (bytes : List ℕ) → SpellsPolyvalue value.now bytes → OnOk result (put.new.bytes ≡ put.old.bytes ++ bytes) }
    ensures kept { StartsWith put.new.bytes put.old.bytes }
{
    let cases = value.cases();
    put.u16(cases.len() as u16)?;
    put_leaves(put, cases)
}

// Writes the leaves, from left to right, each behind the tests that come between it and the leaf before it.
fn put_leaves(put: &mut Put, cases: &[Case<i64>]) -> Result<(), NoMemory>
    ensures written { OnOk result (put.new.bytes ≡ put.old.bytes ++ leaves_bytes cases.now) }
    ensures kept { StartsWith put.new.bytes put.old.bytes }
{
    for case in cases {
        put_tests(put, &case.when)?;
        put_leaf(put, case.value)?;
    }
    Ok(())
}

// Writes the tests whose first leaf it is that stands under these literals: those behind the last one that asks for a commit, where the other side of a test begins.
fn put_tests(put: &mut Put, when: &[Literal]) -> Result<(), NoMemory>
    ensures written { OnOk result (put.new.bytes ≡ put.old.bytes ++ tests_bytes when.now) }
    ensures kept { StartsWith put.new.bytes put.old.bytes }
{
    let mut rest = begun(when);
    while let [literal, later @ ..] = rest {
        put_test(put, literal.txn)?;
        rest = later;
    }
    Ok(())
}

// The literals behind the last one that asks for a commit.
fn begun(literals: &[Literal]) -> &[Literal]
    ensures { result.now ≡ begun literals.now }
{
    let mut behind = literals;
    let mut rest = literals;
    while let [literal, later @ ..] = rest {
        behind = if literal.commits { later } else { behind };
        rest = later;
    }
    behind
}

// Writes the front of a test.
fn put_test(put: &mut Put, txn: TxnId) -> Result<(), NoMemory>
    ensures written { OnOk result (put.new.bytes ≡ put.old.bytes ++ test_bytes txn) }
    ensures kept { StartsWith put.new.bytes put.old.bytes }
{
    let [a, b, c, d, e, f, g, h, i] = txn_bytes(txn);
    put.bytes(&[1, a, b, c, d, e, f, g, h, i])
}

// Writes a leaf.
fn put_leaf(put: &mut Put, value: i64) -> Result<(), NoMemory>
    ensures written { OnOk result (put.new.bytes ≡ put.old.bytes ++ leaf_bytes value) }
    ensures kept { StartsWith put.new.bytes put.old.bytes }
{
    put.bytes(&leaf_bytes(value))
}

// The bytes of a leaf, to be written at once.
fn leaf_bytes(value: i64) -> [u8; 9]
    ensures { result ≡ leaf_bytes value }
{
    let [a, b, c, d, e, f, g, h] = value.to_be_bytes();
    [0, a, b, c, d, e, f, g, h]
}

/// Reads a polyvalue. A refusal is the first fault in reading order: a field that isn't whole, or isn't in its range; a test below as many others as a polyvalue may
/// name; or, where all of it is read, that its count isn't that of its leaves or that it is no polyvalue in canonical form. Takes time in proportion to the bytes that it
/// reads. After a refusal the `Take` stands somewhere within them, and is to be dropped.
pub fn take_poly(alloc: Global, take: &mut Take<'_>) -> Result<Poly<i64>, PolyError>
    ensures answer { Answers (λ (read : List (model.Case ℤ) × List ℕ). BeginsWith read.0 read.1 take.old.left) (TreeFault take.old.place take.old.left)
        (λ poly. (poly, take.new.left)) fault_of result }
    ensures passes { IfOk result (λ poly. Passes (SpellsPolyvalue poly) (polyvalue_then in_tree) take.old take.new) }
    ensures stops { IfErr result (λ e. Stops (polyvalue_then in_tree) take.old (fault_of e)) }
    ensures left { HasGoneOn take.old take.new }
{
    // Only bytes have exactly one answer, as the contract says. That what is left is bytes, `place` promises, and nothing else shows it here.
    let _ = take.place();
    read_poly(alloc, take)
}

/// Reads a polyvalue that is to be sure. That it isn't is a fault of it, where it is read whole.
pub(crate) fn take_sure_poly(alloc: Global, take: &mut Take<'_>) -> Result<Poly<i64>, PolyError>
    ensures passes { IfOk result (λ poly. Passes (SpellsSure poly) (polyvalue_then in_sure_tree) take.old take.new) }
    ensures stops { IfErr result (λ e. Stops (polyvalue_then in_sure_tree) take.old (fault_of e)) }
    ensures left { HasGoneOn take.old take.new }
{
    let place = take.place();
    let value = read_poly(alloc, take)?;
    if value.cases().len() != 1 {
        return Err(PolyError::BadPoly(place));
    }
    Ok(value)
}

// Reads a polyvalue, as a part of what is to be read.
fn read_poly(alloc: Global, take: &mut Take<'_>) -> Result<Poly<i64>, PolyError>
    ensures passes { IfOk result (λ poly. Passes (SpellsPolyvalue poly) (polyvalue_then in_tree) take.old take.new) }
    ensures stops { IfErr result (λ e. Stops (polyvalue_then in_tree) take.old (fault_of e)) }
    ensures left { HasGoneOn take.old take.new }
{
    let place = take.place();
    let count = take.u16()?;
    if count == 1 && begins_leaf(take.left()) {
        // Most values depend on no outcome: no list is made for them.
        let value = take_leaf(take)?;
        let case = Case {
            when: Vec::new(alloc),
            value,
        };
        return poly_of_case(alloc, case, place);
    }
    // As many leaves as the bytes may have are no more than these tell of.
    let mut cases = with_room(alloc, usize::from(count).min(take.left().len() / LEAF))?;
    let mut way = Vec::new(alloc);
    take_node(alloc, take, HELD_NAMES, &mut way, &mut cases)?;
    if cases.len() != usize::from(count) {
        return Err(PolyError::BadPoly(place));
    }
    poly_of(alloc, cases, place)
}

// Whether the first of the bytes is that of a leaf.
fn begins_leaf(bytes: &[u8]) -> bool
    ensures { result ≡ true → (rest : List ℕ) × (bytes.now ≡ 0 ∷ rest) }
{
    match bytes {
        [kind, ..] => *kind == 0,
        [] => false,
    }
}

// Reads a leaf, where it is one that comes.
fn take_leaf(take: &mut Take<'_>) -> Result<i64, PolyError>
    requires { (rest : List ℕ) × (take.old.left ≡ 0 ∷ rest) }
    ensures read { IfOk result (λ value. IsNodeRead HELD_NAMES [] [] (record { when = []; value = value } ∷ []) take.old take.new) }
    ensures stops { IfErr result (λ e. Stops (node_layout HELD_NAMES) take.old (fault_of e)) }
    ensures left { HasGoneOn take.old take.new }
{
    // The kind.
    take.u8()?;
    match take.i64() {
        Ok(value) => Ok(value),
        Err(short) => Err(PolyError::Short(short.0)),
    }
}

// Reads a node with all below it, where so many tests may still come on each way down, and appends its cases, each behind the literals of the way to the node. The way is as it
// was afterwards. It goes no deeper than so many calls.
#[cycle(node)]
fn take_node(
    alloc: Global,
    take: &mut Take<'_>,
    tests: u32,
    way: &mut Vec<Literal>,
    cases: &mut Vec<Case<i64>>,
) -> Result<(), PolyError>
    requires { tests ≤ HELD_NAMES }
    ensures read { OnOk result (IsNodeRead tests way.old.items cases.old.items cases.new.items take.old take.new) }
    ensures way { OnOk result (way.new.items ≡ way.old.items) }
    ensures stops { IfErr result (λ e. Stops (node_layout tests) take.old (fault_of e)) }
    ensures left { HasGoneOn take.old take.new }
{
    let place = take.place();
    let kind = take.u8()?;
    if kind == 0 {
        let value = take.i64()?;
        let when = copied(alloc, way)?;
        cases.push(Case { when, value })?;
        return Ok(());
    }
    if kind != 1 || tests == 0 {
        return Err(PolyError::BadField(place));
    }
    let txn = take_txn(take)?;
    take_side(
        alloc,
        take,
        tests - 1,
        Literal {
            txn,
            commits: false,
        },
        way,
        cases,
    )?;
    take_side(
        alloc,
        take,
        tests - 1,
        Literal { txn, commits: true },
        way,
        cases,
    )
}

// The literals of a way, for the case that it leads to.
fn copied(alloc: Global, way: &[Literal]) -> Result<Vec<Literal>, NoMemory>
    ensures { IfOk result (λ when. when.items ≡ way.now) }
{
    Ok(Vec::from_slice(alloc, way)?)
}

// Reads a side of a test, likewise.
#[cycle(node)]
fn take_side(
    alloc: Global,
    take: &mut Take<'_>,
    tests: u32,
    literal: Literal,
    way: &mut Vec<Literal>,
    cases: &mut Vec<Case<i64>>,
) -> Result<(), PolyError>
    requires { tests ≤ HELD_NAMES }
    ensures read { OnOk result (IsNodeRead tests (way.old.items ++ literal ∷ []) cases.old.items cases.new.items take.old take.new) }
    ensures way { OnOk result (way.new.items ≡ way.old.items) }
    ensures stops { IfErr result (λ e. Stops (node_layout tests) take.old (fault_of e)) }
    ensures left { HasGoneOn take.old take.new }
{
    way.push(literal)?;
    take_node(alloc, take, tests, way, cases)?;
    way.pop();
    Ok(())
}
