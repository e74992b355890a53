// A box may cross threads where its log may.
ghost use Rattle.std.specs.Thread.{IsSend};
ghost use Rattle.pv_cell.specs.contracts.site_box.SiteBox.{the_row as box_row};

use pv_disk::Log;
use pv_history::Entry;
use pv_mail::{Arrival, Begun, ends_cross_threads};
use pv_site::sites_cross_threads;

/// A box may cross threads where its log may. It is for the proof alone: a function that hands a box to another thread calls this one first.
pub fn boxes_cross_threads<L: Log + Send>()
    ensures { IsSend (box_row L.row L.Log) }
{
    sites_cross_threads::<L>();
    ends_cross_threads();
    sends::<Vec<Entry>>();
    sends::<Vec<Begun>>();
    sends::<Option<Arrival>>();
}

// What may cross threads fits here, and nothing else.
fn sends<T: Send>()
    ensures { IsSend T.row }
{}
