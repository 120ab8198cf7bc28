//! The least environment of rules.
#![tactic(auto)]

mod dependents;
mod recording;
mod solving;

pub use recording::{make_recorded, recorded_row, rule_row, rule_row_by, rule_row_with};
pub use solving::{solve, solve_by};
