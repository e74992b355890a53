// What a worker does.
ghost use Rattle.std.specs.Prelude.{◌≡◌, ◌+◌, ◌<◌, ◌≤◌, true, false, length};
ghost use Rattle.pv_base.specs.declared.limits.TheConstants.{MAX_SITES};
ghost use Rattle.pv_crew.specs.Rounds.{IsLaterRound, IsRoundOf};
ghost use Rattle.pv_crew.specs.Seated.{IsLater, IsReady};
ghost use Rattle.pv_crew.specs.declared.work.TheConstants.{MAX_IDLE};

use crate::gate::Gate;
use crate::round::Round;
use crate::visited::Visited;
use pv_base::SiteId;
use pv_turn::{Seat, Turn};
use std::sync::Wait;
use std::sync::atomic::{AtomicBool, Ordering};
use std::thread;

/// After so many visits in a row that took nothing a worker ends.
pub const MAX_IDLE: u32 = 50_000_000;

/// Goes round the turns until all clients have ended, or [`MAX_IDLE`] visits in a row took nothing.
pub(crate) fn work<R: Wait, V: Visited + Drop, G: Gate>(
    rt: &R,
    turns: &[Turn<V>],
    round: Round<V, V::Entry>,
    gate: &G,
    ended: &AtomicBool,
) -> Round<V, V::Entry>
    requires sites { length turns.now ≤ MAX_SITES }
    requires round { IsRoundOf turns.now round }
    ensures { IsLaterRound round result }
{
    let Round { from, mut seats } = round;
    let mut at = from;
    let mut idle = 0;
    for _ in rt.forever() {
        if idle == MAX_IDLE || ended.load(Ordering::SeqCst) {
            return Round { from, seats };
        }
        let took = visit(rt, &turns[at], &mut seats[at], SiteId(at as u8), gate);
        pause(took);
        idle = longer(idle, took);
        at = next(at, turns.len());
    }
    unreachable!()
}

// Takes the turn, visits its value once, and gives the turn back.
fn visit<R: Wait, V: Visited + Drop, G: Gate>(
    rt: &R,
    turn: &Turn<V>,
    seat: &mut Seat<V, V::Entry>,
    site: SiteId,
    gate: &G,
) -> bool
    requires { IsReady turn.now seat.old }
    ensures ready { IsReady turn.now seat.new }
    ensures later { IsLater seat.old seat.new }
{
    let mut value = turn.take(rt, seat);
    gate.before(site);
    let took = value.visit();
    gate.after(site);
    turn.give(seat, value);
    took
}

// Lets another thread run where nothing was taken.
fn pause(took: bool) {
    if !took {
        thread::yield_now();
    }
}

// How many visits in a row took nothing, when there was one more.
fn longer(idle: u32, took: bool) -> u32
    requires { idle < MAX_IDLE }
    ensures took { took ≡ true → result ≡ 0 }
    ensures none { took ≡ false → result ≡ idle + 1 }
{
    if took { 0 } else { idle + 1 }
}

// The place behind this one; behind the last comes the first.
fn next(at: usize, count: usize) -> usize
    requires { at < count }
    ensures next { at + 1 < count → result ≡ at + 1 }
    ensures first { at + 1 ≡ count → result ≡ 0 }
{
    if at + 1 < count { at + 1 } else { 0 }
}
