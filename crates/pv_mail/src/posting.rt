// What the steps of a site post to sites.
ghost use Rattle.std.specs.Prelude.{◌≡◌, ◌<◌, ◌≤◌, ◌-◌, ◌^◌, ◌∷◌, [], OnOk, IsErr, All, length, map, take};
ghost use Rattle.pv_mail.specs.Posting.{PostsAll};
ghost use Rattle.pv_site.specs.Inputs.{IsSpelledFrom};
ghost use Rattle.pv_site.specs.Values.{outgoing_of};

use crate::Parcel;
use pv_base::{NoMemory, SiteId};
use pv_post::Out;
use pv_rings::post_to;
use pv_site::Outgoing;
use pv_wire::{Envelope, encode};
use std::alloc::Global;

/// Posts the messages of a step, in order. One that finds no memory is lost with those after it, and it is answered how many are. A message to a
/// site for which there is no ring goes nowhere.
pub fn post_all(
    alloc: Global,
    outs: &mut Vec<Out<Parcel>>,
    from: SiteId,
    stamp: u64,
    sends: Vec<Outgoing>,
) -> u32
    requires spelled { All (IsSpelledFrom from.0) sends.items }
    requires count { length sends.items < 2 ^ 32 }
    ensures short { result ≤ length sends.items }
    ensures posts { PostsAll from.0 stamp 0 (take (length sends.items - result) (map outgoing_of sends.items)) outs.old.items outs.new.items }
{
    let count = sends.len() as u32;
    let mut place = 0;
    for outgoing in sends {
        if post(alloc, outs, from, stamp, place, outgoing).is_err() {
            return count - place;
        }
        place += 1;
    }
    0
}

// Posts a message.
fn post(
    alloc: Global,
    outs: &mut Vec<Out<Parcel>>,
    from: SiteId,
    stamp: u64,
    place: u32,
    outgoing: Outgoing,
) -> Result<(), NoMemory>
    requires { IsSpelledFrom from.0 outgoing }
    ensures posted { OnOk result (PostsAll from.0 stamp place (outgoing_of outgoing ∷ []) outs.old.items outs.new.items) }
    ensures lost { IsErr result → outs.new.items ≡ outs.old.items }
{
    let to = outgoing.to;
    if to.0 as usize >= outs.len() {
        return Ok(());
    }
    let envelope = Envelope {
        from,
        to,
        message: outgoing.message,
    };
    let bytes = encode(alloc, &envelope)?;
    post_to(
        outs,
        to.0 as usize,
        Parcel {
            stamp,
            place,
            bytes,
        },
    );
    Ok(())
}
