// Operators on values of 64 bits.
ghost use Rattle.std.specs.Prelude.{◌≡◌, ◌+ℤ◌, ◌-ℤ◌, ◌*ℤ◌, neg_ℤ, pos, int_lt, if◌then◌else◌};
ghost use Rattle.pv_model.specs.Meaning.{within, quotient, remainder, truth, computed};
ghost use Rattle.pv_ast.specs.OpView.{op_of};

use crate::{Decline, Op};

/// An operator on the values of both sides.
pub fn compute(op: Op, x: i64, y: i64) -> Result<i64, Decline>
    ensures { result ≡ computed (op_of op) x y }
{
    match op {
        Op::Or => Ok(truth(x != 0 || y != 0)),
        Op::And => Ok(truth(x != 0 && y != 0)),
        Op::Equal => Ok(truth(x == y)),
        Op::Unequal => Ok(truth(x != y)),
        Op::Less => Ok(truth(x < y)),
        Op::AtMost => Ok(truth(x <= y)),
        Op::Greater => Ok(truth(x > y)),
        Op::AtLeast => Ok(truth(x >= y)),
        Op::Plus => sum(x, y),
        Op::Sub => difference(x, y),
        Op::Times => product(x, y),
        Op::Over => quotient(x, y),
        Op::Rest => remainder(x, y),
        Op::Min => Ok(if y < x { y } else { x }),
        Op::Max => Ok(if x < y { y } else { x }),
    }
}

/// 1 for a test that is true, and else 0.
pub fn truth(test: bool) -> i64
    ensures { result ≡ truth test }
{
    if test { 1 } else { 0 }
}

/// The number with the other sign, which declines for the least number.
pub fn negative(x: i64) -> Result<i64, Decline>
    ensures { result ≡ within (neg_ℤ x) }
{
    match x.checked_neg() {
        Some(z) => Ok(z),
        None => Err(Decline::Overflow),
    }
}

fn sum(x: i64, y: i64) -> Result<i64, Decline>
    ensures { result ≡ within (x +ℤ y) }
{
    match x.checked_add(y) {
        Some(z) => Ok(z),
        None => Err(Decline::Overflow),
    }
}

fn difference(x: i64, y: i64) -> Result<i64, Decline>
    ensures { result ≡ within (x -ℤ y) }
{
    match x.checked_sub(y) {
        Some(z) => Ok(z),
        None => Err(Decline::Overflow),
    }
}

fn product(x: i64, y: i64) -> Result<i64, Decline>
    ensures { result ≡ within (x *ℤ y) }
{
    match x.checked_mul(y) {
        Some(z) => Ok(z),
        None => Err(Decline::Overflow),
    }
}

fn quotient(x: i64, y: i64) -> Result<i64, Decline>
    ensures { result ≡ quotient x y }
{
    if y == 0 {
        return Err(Decline::ZeroDivisor);
    }
    match x.checked_div(y) {
        Some(z) => Ok(z),
        None => Err(Decline::Overflow),
    }
}

fn remainder(x: i64, y: i64) -> Result<i64, Decline>
    ensures { result ≡ remainder x y }
{
    if y == 0 {
        return Err(Decline::ZeroDivisor);
    }
    match x.checked_rem(y) {
        Some(z) => Ok(z),
        None => Err(Decline::Overflow),
    }
}
