// The rings of a box may cross threads.
ghost use Rattle.std.specs.Thread.{IsSend};
ghost use Rattle.pv_mail.specs.contracts.ends.Ends.{the_row as ends_row};

use crate::{Answer, Ends, Parcel};
use pv_post::{In, Out};
use pv_script::Request;

/// The ends of a box's rings may cross threads. It is for the proof alone: a function that hands them to another thread calls this one first.
pub fn ends_cross_threads()
    ensures { IsSend ends_row }
{
    sends::<Vec<In<Parcel>>>();
    sends::<Vec<Out<Parcel>>>();
    sends::<Vec<In<Request>>>();
    sends::<Vec<Out<Answer>>>();
}

// What may cross threads fits here, and nothing else.
fn sends<T: Send>()
    ensures { IsSend T.row }
{}
