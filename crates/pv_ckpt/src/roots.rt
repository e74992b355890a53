// The two roots of a log in two areas, and which of them is in force.
ghost use Rattle.std.specs.Prelude.{◌≡◌, ◌≢◌, ℕ, ◌+◌, ◌≤◌, List, None, length, take, drop, IfOk, IfErr, IfSome};
ghost use Rattle.pv_base.specs.BigEndian.{number_of};
ghost use Rattle.pv_law_checkpoints.specs.Roots.{gate_at, other_root, IsInForce};
ghost use Rattle.pv_law_checkpoints.specs.TwoAreas.{Starts};
ghost use Rattle.pv_ckpt.specs.Roots.{IsRootOf, IsRootless};

use pv_bytes::Take;
use pv_journal::agreement;

/// What a log in two areas begins with.
pub const HEADER: [u8; 8] = *b"PVCKPT01";

/// Where the first root stands.
const FIRST: usize = 8;

/// Where the second root stands.
const SECOND: usize = 33;

/// Where the bytes of both roots end.
pub(crate) const BEHIND_ROOTS: u64 = 58;

/// How many bytes a log has at least: those that it begins with, both roots, and a gate.
pub(crate) const LEAST: u64 = 59;

/// The root that is in force.
#[derive(Clone, Copy)]
pub(crate) struct Root {
    /// Where it stands itself.
    pub(crate) at: u64,
    /// Its number.
    pub(crate) number: u64,
    /// Where its block stands.
    pub(crate) place: u64,
    /// How many bytes its block has.
    pub(crate) size: u64,
    /// Whether the gate of the other root is 1.
    pub(crate) other_open: bool,
}

/// The root in force by what a log begins with, up to both roots and one byte more; or the place where it shows that there is none.
pub(crate) fn root_in(front: &[u8]) -> Result<Root, u64>
    requires { length front.now ≤ 59 }
    ensures root { IfOk result (λ root. IsRootOf front.now root) }
    ensures none { IfErr result (λ place. IsRootless front.now place) }
{
    let place = agreement(front, &HEADER);
    if place < 8 {
        return Err(place as u64);
    }
    let size = front.len() as u64;
    if size < LEAST {
        return Err(size);
    }
    match root_in_force(front) {
        Some(at) => Ok(root_at(front, at)),
        None => Err(FIRST as u64),
    }
}

/// Where the root in force stands: of the open ones that with the greater number, and the first where they are equal.
#[tactic(auto, using(crate::proofs::RootLemmas::choosing))]
fn root_in_force(front: &[u8]) -> Option<usize>
    requires { 59 ≤ length front.now }
    ensures found { IfSome result (λ at. IsInForce front.now at) }
    ensures first_or_second { IfSome result (λ at. at ≤ 33) }
    ensures first_shut { result ≡ None → gate_at front.now 8 ≢ 1 }
    ensures second_shut { result ≡ None → gate_at front.now 33 ≢ 1 }
{
    if front[FIRST] != 1 {
        return if front[SECOND] == 1 {
            Some(SECOND)
        } else {
            None
        };
    }
    if front[SECOND] != 1 {
        return Some(FIRST);
    }
    if number_at(front, FIRST + 1) < number_at(front, SECOND + 1) {
        Some(SECOND)
    } else {
        Some(FIRST)
    }
}

/// The root in force, which stands here.
fn root_at(front: &[u8], at: usize) -> Root
    requires starts { Starts front.now }
    requires in_force { IsInForce front.now at }
    requires first_or_second { at ≤ 33 }
    ensures place { result.at ≡ at }
    ensures root { IsRootOf front.now result }
{
    let other = other_root(at as u64) as usize;
    Root {
        at: at as u64,
        number: number_at(front, at + 1),
        place: number_at(front, at + 9),
        size: number_at(front, at + 17),
        other_open: front[other] == 1,
    }
}

/// Where the other root stands, beside the one that stands here.
pub(crate) fn other_root(at: u64) -> u64
    requires { at ≤ 33 }
    ensures { result ≡ other_root at }
{
    FIRST as u64 + SECOND as u64 - at
}

/// The number that the eight bytes from here on are, the most significant first.
fn number_at(bytes: &[u8], at: usize) -> u64
    requires { at + 8 ≤ length bytes.now }
    ensures { result ≡ number_of (take 8 (drop at bytes.now)) }
{
    match Take::new(&bytes[at..at + 8]).u64() {
        Ok(number) => number,
        Err(_) => unreachable!(),
    }
}
