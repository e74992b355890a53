// Values get turns, and workers a seat of each.
ghost use Rattle.std.specs.Prelude.{◌≡◌, ℕ, ◌<◌, ◌%◌, ◌++◌, ◌∷◌, [], List, IfOk, OnOk, get_or, length};
ghost use Rattle.pv_rings.specs.Rings.{Each};
ghost use Rattle.pv_crew.specs.Dealing.{AreDealt, AreEmpty, IsWith};

use crate::round::Round;
use pv_base::NoMemory;
use pv_turn::{Entries, Seat, Turn};
use std::alloc::Global;

/// Each value gets a turn, and each of so many workers a seat of each turn.
pub(crate) fn deal_all<V: Entries + Drop>(
    alloc: Global,
    values: Vec<V>,
    workers: u32,
) -> Result<(Vec<Turn<V>>, Vec<Round<V, V::Entry>>), NoMemory>
    requires values { 0 < length values.items }
    requires workers { 0 < workers }
    ensures { IfOk result (λ dealt. AreDealt V.entries (length values.items) workers values.items dealt.0.items dealt.1.items) }
{
    let sites = values.len();
    let mut turns = Vec::new(alloc);
    let mut rounds = empty_rounds(alloc, workers, sites)?;
    for value in values {
        deal(alloc, value, workers, &mut turns, &mut rounds)?;
    }
    Ok((turns, rounds))
}

// So many rounds without a seat. The worker of number w begins at w modulo the count of sites.
fn empty_rounds<V, E>(
    alloc: Global,
    workers: u32,
    sites: usize,
) -> Result<Vec<Round<V, E>>, NoMemory>
    requires { 0 < sites }
    ensures { IfOk result (λ rounds. AreEmpty sites workers rounds.items) }
{
    let mut rounds = Vec::new(alloc);
    for worker in 0..workers {
        let round = empty_round(alloc, worker, sites);
        rounds.push(round)?;
    }
    Ok(rounds)
}

// The round of this worker, without a seat.
fn empty_round<V, E>(alloc: Global, worker: u32, sites: usize) -> Round<V, E>
    requires { 0 < sites }
    ensures from { result.from ≡ worker % sites }
    ensures seats { result.seats.items ≡ [] }
{
    Round {
        from: worker as usize % sites,
        seats: Vec::new(alloc),
    }
}

// The value gets a turn, the last one, and each round a seat of it.
fn deal<V: Entries + Drop>(
    alloc: Global,
    value: V,
    workers: u32,
    turns: &mut Vec<Turn<V>>,
    rounds: &mut Vec<Round<V, V::Entry>>,
) -> Result<(), NoMemory>
    requires workers { 0 < workers }
    requires rounds { length rounds.old.items ≡ workers }
    ensures { OnOk result ((sites : ℕ) (values : List V) → AreDealt V.entries sites workers values turns.old.items rounds.old.items → AreDealt V.entries sites workers (values ++ value ∷ []) turns.new.items rounds.new.items) }
{
    let Ok((turn, seats)) = Turn::new(alloc, value, workers) else {
        return Err(NoMemory);
    };
    hand_out(rounds, seats)?;
    turns.push(turn)?;
    Ok(())
}

// Each round gets the seat at its place.
fn hand_out<V, E>(rounds: &mut Vec<Round<V, E>>, seats: Vec<Seat<V, E>>) -> Result<(), NoMemory>
    requires { length seats.items ≡ length rounds.old.items }
    ensures { OnOk result (Each (λ k old new. (d : Seat V E) → IsWith (get_or seats.items k d) old new) rounds.old.items rounds.new.items) }
{
    let mut seats = seats;
    while let Some(seat) = seats.pop() {
        let at = seats.len();
        rounds[at].put(seat)?;
    }
    Ok(())
}
