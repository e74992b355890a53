// What is done to a box one after another, and what is expected of it.
ghost use Rattle.std.specs.Prelude.{◌≡◌};
ghost use Rattle.pv_cell.specs.Box.{IsBox};
ghost use Rattle.pv_disk.specs.ListLaws.{list_model};

use crate::rings::{ask, is_heard, is_sent, send};
use crate::rows::rows_of;
use crate::stage::Stage;
use pv_cell::Visit;
use std::alloc::Global;
use std::test::Fail;

/// What happens to the box, or is seen of it.
#[derive(Clone, Copy)]
pub(crate) enum Act {
    /// The client asks, in its request of this number, for what the script asks for.
    Asks(u32, &'static [u8]),
    /// So many visits answer this.
    Visits(u32, Visit),
    /// A tick answers this.
    Ticks(Visit),
    /// The box has sent this message, at this stamp and place. It is lost.
    Loses(u64, u32, &'static [u8]),
    /// The box has sent this message, at this stamp and place. It goes on to the site.
    Passes(u64, u32, &'static [u8]),
    /// The client hears this, as it is debugged.
    Hears(&'static str),
    /// The box has sent nothing more, and the client hears nothing more.
    Silent,
}

/// What happens to a new box, and what its history is afterwards.
#[derive(Clone, Copy)]
pub(crate) struct Play {
    /// What happens.
    pub(crate) acts: &'static [Act],
    /// The history, a line for each entry.
    pub(crate) rows: &'static str,
}

// whether so many visits answer this
fn visits(stage: &mut Stage, count: u32, told: Visit) -> bool
    requires { IsBox list_model stage.old.cell }
    ensures { IsBox list_model stage.new.cell }
{
    for _ in 0..count {
        if stage.visit() != told {
            return false;
        }
    }
    true
}

// whether the other ends of the box's rings do what is told of them
fn rings(alloc: Global, stage: &mut Stage, act: Act) -> Result<bool, Fail>
    ensures { stage.new.cell ≡ stage.old.cell }
{
    match act {
        Act::Asks(number, script) => {
            ask(alloc, &mut stage.asks, number, script)?;
            Ok(true)
        }
        Act::Loses(stamp, place, message) => { Ok(is_sent(&mut stage.sent, stamp, place, message)) }
        Act::Passes(stamp, place, message) => {
            send(alloc, &mut stage.post, stamp, place, message)?;
            Ok(is_sent(&mut stage.sent, stamp, place, message))
        }
        Act::Hears(told) => is_heard(alloc, &mut stage.hears, told),
        Act::Silent => Ok(stage.is_silent()),
        Act::Visits(..) | Act::Ticks(_) => Ok(false),
    }
}

// whether the box does what is told of it
fn acts(alloc: Global, stage: &mut Stage, act: Act) -> Result<bool, Fail>
    requires { IsBox list_model stage.old.cell }
    ensures { IsBox list_model stage.new.cell }
{
    match act {
        Act::Visits(count, told) => Ok(visits(stage, count, told)),
        Act::Ticks(told) => Ok(stage.tick() == told),
        other => rings(alloc, stage, other),
    }
}

// The first act in which the box does something else than is told of it, counted from 0.
fn first_wrong(alloc: Global, stage: &mut Stage, told: &[Act]) -> Result<Option<usize>, Fail>
    requires { IsBox list_model stage.old.cell }
{
    for (number, act) in told.iter().enumerate() {
        if !acts(alloc, stage, *act)? {
            return Ok(Some(number));
        }
    }
    Ok(None)
}

// The play, which fails where the box does something else than is told of it.
fn performed(alloc: Global, stage: &mut Stage, told: &Play) -> Result<(), Fail>
    requires { IsBox list_model stage.old.cell }
{
    if let Some(number) = first_wrong(alloc, stage, told.acts)? {
        return Err(("act", number).into());
    }
    let rows = rows_of(alloc, stage.cell.history())?;
    if rows.as_str() == told.rows {
        Ok(())
    } else {
        Err(rows.into())
    }
}

/// Plays what is told.
pub(crate) fn perform(alloc: Global, told: &Play) -> Result<(), Fail> {
    let mut stage = Stage::new(alloc)?;
    let ended = performed(alloc, &mut stage, told);
    stage.close();
    ended
}
