// A turn is taken, given back and closed, by one seat, and by two in threads of their own.
ghost use Rattle.std.specs.Prelude.{◌≡◌};
ghost use Rattle.pv_turn.specs.Seats.{IsSeatOf, Rests};

use crate::numbers::Numbers;
use pv_turn::*;
use std::sync::Wait;
use std::test::Fail;
use std::thread;

#[test]
fn a_turn_gives_its_value_back(rt: HostRuntime) -> Result<(), Fail> {
    let mut numbers = Numbers::new(rt.alloc());
    numbers.add(7)?;
    let Ok((turn, mut seats)) = Turn::new(rt.alloc(), numbers, 1) else {
        return Ok(());
    };
    let mut seat = seats.pop().unwrap();
    let mut value = turn.take(&rt, &mut seat);
    assert_eq!(rt; value.all.as_slice(), [7].as_slice());
    value.add(8)?;
    turn.give(&mut seat, value);
    seats.push(seat)?;
    let value = turn.close(seats);
    assert_eq!(rt; value.all.as_slice(), [7, 8].as_slice());
    Ok(())
}

// Takes the turn, adds a number, and gives the turn back.
fn add_in_turn<R: Wait>(
    rt: &R,
    turn: &Turn<Numbers>,
    seat: Seat<Numbers, u64>,
    number: u64,
) -> Seat<Numbers, u64>
    requires { IsSeatOf turn.now seat × Rests seat }
    ensures { IsSeatOf turn.now result × Rests result }
{
    let mut seat = seat;
    let mut value = turn.take(rt, &mut seat);
    // Without memory there is one number less, which the test finds.
    let _ = value.add(number);
    turn.give(&mut seat, value);
    seat
}

#[test]
fn two_threads_have_a_turn_each(rt: HostRuntime) -> Result<(), Fail> {
    let Ok((turn, mut seats)) = Turn::new(rt.alloc(), Numbers::new(rt.alloc()), 2) else {
        return Ok(());
    };
    let second = seats.pop().unwrap();
    let first = seats.pop().unwrap();
    let (first, second) = thread::join(
        &rt,
        || -> Seat<Numbers, u64>
            requires { IsSeatOf turn first × Rests first }
            ensures { IsSeatOf turn result × Rests result }
        { add_in_turn(&rt, &turn, first, 1) },
        || -> Seat<Numbers, u64>
            requires { IsSeatOf turn second × Rests second }
            ensures { IsSeatOf turn result × Rests result }
        { add_in_turn(&rt, &turn, second, 2) },
    );
    seats.push(first)?;
    seats.push(second)?;
    let value = turn.close(seats);
    assert!(rt;
        value.all.as_slice() == [1, 2].as_slice() || value.all.as_slice() == [2, 1].as_slice()
    );
    Ok(())
}
