//! From the bytes of a file to its rules: the tree of the file, the rules that it says, and the tokens, tree, type and patterns of each expression; or the first thing
//! that refuses the file.
#![tactic(auto)]

mod accepting;
mod allowance;
mod expression;
mod patterns;
mod rules;
mod sizes;

pub use accepting::{Acceptance, accept, accept_counted, one_count, one_file};
