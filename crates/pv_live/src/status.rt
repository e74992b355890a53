// The status of `live`.
ghost use Rattle.std.specs.Prelude.{◌≡◌};
ghost use Rattle.pv_live.specs.LiveEnds.{live_status};

use crate::live_end::LiveEnd;
use pv_io::ReadEnd;
use pv_run::{Status, status_of_unread};

/// The status of `live`, by how [`read_and_live`](crate::read_and_live) ended.
pub fn status_of_live(ended: Result<LiveEnd, ReadEnd>) -> Status
    ensures { result ≡ live_status ended }
{
    match ended {
        Ok(LiveEnd::Done) => Status::Done,
        Ok(LiveEnd::Malformed) => Status::Malformed,
        Ok(LiveEnd::WriteFault) => Status::WriteFault,
        Ok(LiveEnd::NoMemory) => Status::NoMemory,
        Ok(LiveEnd::BayFault) => Status::BayFault,
        Ok(LiveEnd::NotEmpty) => Status::NotEmpty,
        Err(why) => status_of_unread(why),
    }
}
