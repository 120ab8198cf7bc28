//! What is told of all parts of an expression, each once, in a time linear in their number.
#![tactic(auto)]

mod choosing;
mod counting;
mod folding;
mod grouping;

pub use folding::{Copied, fold_parts};
pub use grouping::by_parts;
