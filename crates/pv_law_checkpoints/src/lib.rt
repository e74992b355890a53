//! Laws of which bytes are a log in two areas, with which contents, where it shows that others are none, and of what a checkpoint makes of one at each moment.
//! The functions do nothing: each states a law.
#![tactic(auto)]

mod appends;
mod checkpoints;
mod logs;

pub use appends::{frames_keep_the_contents, gates_add_the_content};
pub use checkpoints::{
    blocks_lie_apart, checkpoints_pack, crashes_keep_the_contents, parts_lead_on, stops_are_crashes,
};
pub use logs::{
    contents_are_those_of_the_log, formatted_is_empty, one_log, three_contents_are_packed_twice,
};
