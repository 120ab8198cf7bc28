//! The least environment of rules by rounds over shared words, which any number of workers raise at once.
#![tactic(auto)]

mod beginning;
mod between;
mod due;
mod known;
mod round;
pub mod rule;
mod solving;
mod sums;
mod table_words;

pub use beginning::first_words;
pub use round::{Round, RoundEnd, RoundSeat};
pub use solving::{solve_shared, solve_shared_by};
