// What goes through the rings of a box.
use pv_mail::{Answer, Parcel};
use pv_post::{In, Out};
use pv_script::{MAX_SCHEDULE, Request, Wish, read_live};
use std::alloc::Global;
use std::test::Fail;

/// A message is posted that was sent at this stamp and place.
pub(crate) fn send(
    alloc: Global,
    out: &mut Out<Parcel>,
    stamp: u64,
    place: u32,
    message: &[u8],
) -> Result<(), Fail> {
    let bytes = Vec::from_slice(alloc, message)?;
    out.post(Parcel {
        stamp,
        place,
        bytes,
    });
    Ok(())
}

/// Whether this message is taken, sent at this stamp and place.
pub(crate) fn is_sent(inlet: &mut In<Parcel>, stamp: u64, place: u32, message: &[u8]) -> bool {
    match inlet.take() {
        Some((parcel, 1)) => is_parcel(&parcel, stamp, place, message),
        _ => false,
    }
}

// whether the parcel is of this message, sent at this stamp and place
fn is_parcel(parcel: &Parcel, stamp: u64, place: u32, message: &[u8]) -> bool {
    parcel.stamp == stamp && parcel.place == place && parcel.bytes.as_slice() == message
}

/// The client asks, in its request of this number, for what this script asks for.
pub(crate) fn ask(
    alloc: Global,
    out: &mut Out<Request>,
    number: u32,
    script: &[u8],
) -> Result<(), Fail> {
    let mut asked = request_in(alloc, script)?;
    asked.number = number;
    out.post(asked);
    Ok(())
}

// the last request of the script's last client
fn request_in(alloc: Global, script: &[u8]) -> Result<Request, Fail> {
    if script.len() > MAX_SCHEDULE {
        return Err("a script is short".into());
    }
    let mut live = read_live(alloc, script)?;
    let Some(mut client) = live.clients.pop() else {
        return Err("a script has a client".into());
    };
    match client.requests.pop() {
        Some(Wish::Do(request)) => Ok(request),
        _ => Err("the client asks for something".into()),
    }
}

/// Whether the client hears this, as it is debugged.
pub(crate) fn is_heard(alloc: Global, inlet: &mut In<Answer>, told: &str) -> Result<bool, Fail> {
    match inlet.take() {
        Some((answer, 1)) => Ok(format!(in alloc; "{answer:?}")?.as_str() == told),
        _ => Ok(false),
    }
}
