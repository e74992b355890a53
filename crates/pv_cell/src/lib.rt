//! A site in a box: it takes what rings bring it, one input a visit, stamps it, keeps what came of it as a history, and posts what its steps send
//! and what its clients are to hear. What is so of a box at any time, after however many visits and ticks, is said of `new`, `visit` and `tick` by the laws of `course.rt`.
#![tactic(auto)]

mod course;
mod crossing;
mod opened;
mod site_box;
mod visit;

pub use course::{
    boxes_fit_together, boxes_keep_their_course, boxes_lend_their_ends,
    boxes_pass_messages_in_order, boxes_stay_the_same, boxes_tell_their_history,
};
pub use crossing::boxes_cross_threads;
pub use opened::new_sites_fit_boxes;
pub use site_box::{IDLE_VISITS, SiteBox};
pub use visit::Visit;
