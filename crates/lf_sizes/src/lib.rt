//! How large and how wide patterns are, by their texts: about how many states a program has that tries one, and in how many of these it may be at once.
#![tactic(auto)]

mod size;

pub use size::{pattern_size, pattern_width};
