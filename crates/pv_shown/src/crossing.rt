// A box in its turn may cross threads where its log may.
ghost use Rattle.std.specs.Thread.{IsSend};
ghost use Rattle.pv_shown.specs.contracts.shown.Shown.{the_row as shown_row};

use crate::Shown;
use pv_cell::boxes_cross_threads;
use pv_disk::Log;

/// A box in its turn may cross threads where its log may. It is for the proof alone: a function that hands one to another thread calls this one first.
pub fn shown_cross_threads<L: Log + Send>()
    ensures { IsSend (shown_row L.row L.Log) }
{
    boxes_cross_threads::<L>();
}

// A box in its turn goes where what may cross threads is asked for, which is refused here where one of its fields may not.
fn crosses_threads<L: Log + Send>() {
    shown_cross_threads::<L>();
    sends::<Shown<L>>();
}

// What may cross threads fits here, and nothing else.
fn sends<T: Send>()
    ensures { IsSend T.row }
{}
