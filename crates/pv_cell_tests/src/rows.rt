// A history as a text.
use pv_history::{Entry, Taken};
use std::alloc::Global;
use std::test::Fail;

/// The entries of a history, a line each: the stamp, what was taken in, how many messages were sent, and what came of it, as it is debugged.
pub(crate) fn rows_of(alloc: Global, history: &[Entry]) -> Result<String, Fail> {
    let mut rows = String::new(alloc);
    for entry in history {
        rows.push_str(&row_of(alloc, entry)?)?;
    }
    Ok(rows)
}

// the line of an entry
fn row_of(alloc: Global, entry: &Entry) -> Result<String, Fail> {
    let came = came_text(alloc, &entry.input)?;
    let Entry {
        stamp,
        sends,
        seen,
        ..
    } = entry;
    Ok(format!(in alloc; "{stamp} {came} {sends} {seen:?}\n")?)
}

// what was taken in: the place of the client and the number of its request, or the stamp and the place of the message
fn came_text(alloc: Global, taken: &Taken) -> Result<String, Fail> {
    Ok(match taken {
        Taken::Request { client, request } => {
            let number = request.number;
            format!(in alloc; "request {client} {number}")?
        }
        Taken::Parcel { stamp, place, .. } => format!(in alloc; "parcel {stamp} {place}")?,
        Taken::Tick => format!(in alloc; "tick")?,
    })
}
