//! What an expression, and a run of rules, strictly gives over stored samples.
#![tactic(auto)]

mod absence;
mod apart;
mod becoming;
mod buckets;
mod choosing;
mod effects;
mod evaluated;
mod evaluating;
mod joining;
mod lending;
mod named_samples;
mod operand;
mod operating;
mod pair_labels;
mod pairs;
mod partners;
mod replacing;
mod running;
mod same_signature;
mod sample_set;
mod samples;
mod selecting;
mod sets;
mod signature;
mod stepping;
mod store;
mod storing;

pub use evaluating::strict;
pub use running::{strict_after, strict_run};
