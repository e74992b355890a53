//! Laws on programs: their texts, their effects on rows, the items that they name and their plans. The functions do nothing: each states a law.
#![tactic(auto)]

mod effects;
mod items;
mod texts;

pub use effects::{
    decline_leaves_rows, items_stay, order_of_rows_is_free, own_rows_alone, return_is_last,
    unassigned_keeps_value,
};
pub use items::{one_items, one_plan, some_items, some_plan};
pub use texts::{name_is_token, no_refusal, one_program, one_refusal, some_answer};
