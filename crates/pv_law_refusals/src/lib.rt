//! Laws of refusals in every run of many sites, and of what came before them: why locks were denied and votes were no, and how long a
//! coordinator has waited. The functions do nothing: each states a law.
#![tactic(auto)]

mod examples;
mod histories;
mod refusals;

pub use examples::{each_cause_comes, refused_events_are_well_formed};
pub use histories::{denials_and_noes_have_reasons, denials_name_another, entries_have_waited};
pub use refusals::{refusals_hold, texts_refuse_for_causes};
