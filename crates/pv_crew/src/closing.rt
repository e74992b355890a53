// Seats come back from the workers, and values out of their turns.
ghost use Rattle.std.specs.Prelude.{◌≡◌, ◌<◌, ◌+◌, All, IfOk, OnOk, get_or, length};
ghost use Rattle.pv_rings.specs.Rings.{Each};
ghost use Rattle.pv_turn.specs.Seats.{BeginsWith};
ghost use Rattle.pv_crew.specs.Dealing.{AreReady, IsSeenBy, IsWith, IsWithSuch};

use crate::round::Round;
use pv_base::NoMemory;
use pv_turn::{Entries, Seat, Turn};
use std::alloc::Global;

/// All seats come back from the rounds, and the values out of their turns. Their entries begin with what the seats of any round have seen.
pub(crate) fn close_all<V: Entries + Drop>(
    alloc: Global,
    turns: Vec<Turn<V>>,
    rounds: Vec<Round<V, V::Entry>>,
) -> Result<Vec<V>, NoMemory>
    requires { AreReady turns.items rounds.items }
    ensures { IfOk result (λ values. All (IsSeenBy V.entries values.items) rounds.items) }
{
    let mut turns = turns;
    let mut rounds = rounds;
    let mut values = Vec::new(alloc);
    while !turns.is_empty() {
        let value = close_last(alloc, &mut turns, &mut rounds)?;
        values.push(value)?;
    }
    values.reverse();
    Ok(values)
}

// The seats of the last turn come back, and its value comes out.
fn close_last<V: Entries + Drop>(
    alloc: Global,
    turns: &mut Vec<Turn<V>>,
    rounds: &mut Vec<Round<V, V::Entry>>,
) -> Result<V, NoMemory>
    requires some { 0 < length turns.old.items }
    requires ready { AreReady turns.old.items rounds.old.items }
    ensures count { OnOk result (length turns.new.items + 1 ≡ length turns.old.items) }
    ensures ready { OnOk result (AreReady turns.new.items rounds.new.items) }
    ensures value { IfOk result (λ value. Each (λ _ old new. IsWithSuch (BeginsWith (V.entries value)) new old) rounds.old.items rounds.new.items) }
{
    let turn = turns.pop().unwrap();
    let seats = take_back(alloc, rounds)?;
    Ok(turn.close(seats))
}

// The last seat of each round comes back.
fn take_back<V, E>(
    alloc: Global,
    rounds: &mut Vec<Round<V, E>>,
) -> Result<Vec<Seat<V, E>>, NoMemory>
    requires { All (λ round. 0 < length round.seats.items) rounds.old.items }
    ensures count { IfOk result (λ seats. length seats.items ≡ length rounds.old.items) }
    ensures seats { IfOk result (λ seats. Each (λ k old new. (d : Seat V E) → IsWith (get_or seats.items k d) new old) rounds.old.items rounds.new.items) }
{
    let mut seats = Vec::new(alloc);
    let count = rounds.len();
    for at in 0..count {
        let seat = rounds[at].take();
        seats.push(seat)?;
    }
    Ok(seats)
}
