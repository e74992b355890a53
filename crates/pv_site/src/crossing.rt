// A site may cross threads where its log may.
ghost use Rattle.std.specs.Thread.{IsSend};
ghost use Rattle.pv_site.specs.contracts.parts.SiteParts.{the_row as parts_row};
ghost use Rattle.pv_site.specs.contracts.site.Site.{the_row as site_row};

use crate::Site;
use crate::surplus::Surplus;
use pv_base::Catalog;
use pv_coord::Coord;
use pv_disk::Log;
use pv_locks::Locks;
use pv_store::Store;

/// A site may cross threads where its log may. It is for the proof alone: a function that hands a site to another thread calls this one first.
pub fn sites_cross_threads<L: Log + Send>()
    ensures { IsSend (site_row L.row L.Log) }
{
    parts_cross_threads();
}

// A site goes where what may cross threads is asked for, which is refused here where one of its fields may not.
fn crosses_threads<L: Log + Send>() {
    sites_cross_threads::<L>();
    sends::<Site<L>>();
}

// All that a site has beside its log may cross threads. The prover finds it of each field by itself, but not of a struct that has them all
// within another one: so each is a fact first.
fn parts_cross_threads()
    ensures { IsSend parts_row }
{
    sends::<Catalog>();
    sends::<Locks>();
    sends::<Coord>();
    sends::<Store>();
    sends::<Surplus>();
}

// What may cross threads fits here, and nothing else.
fn sends<T: Send>()
    ensures { IsSend T.row }
{}
