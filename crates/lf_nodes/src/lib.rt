//! What one node of an expression says by itself: which argument of a call its samples come from, which labels a grouping or a vector matching names, whether an operator lets
//! samples through, whether a matcher is by a pattern, and what an `absent` looks for.
#![tactic(auto)]

mod absence;
mod arguments;
mod labels;
mod matchers;
mod operators;
mod values;

pub use absence::{Sought, leaves_open, sought_in};
pub use arguments::{
    gives_scalar, is_rule_type, joined_sources, operand_place, parts_needed, takes_samples,
};
pub use labels::{is_among, is_grouped_by, is_metric, keeps, signs};
pub use matchers::takes_pattern;
pub use operators::{is_arithmetic, is_filter};
pub use values::{at_most_one, both, the_only};
