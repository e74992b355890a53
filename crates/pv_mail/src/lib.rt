//! What comes to a site in a box and what goes out of it: messages and requests that rings bring, parcels and answers that are posted, and who waits
//! for what.
#![tactic(auto)]

mod answer;
mod arrival;
mod asked;
mod crossing;
mod ends;
mod head;
mod posting;
mod telling;

pub use answer::{Answer, What};
pub use arrival::{Arrival, copy_request};
pub use asked::{Asker, Begun, take_asker};
pub use crossing::ends_cross_threads;
pub use ends::{Ends, Parcel};
pub use head::{Head, joined, parted};
pub use posting::post_all;
pub use telling::Telling;
