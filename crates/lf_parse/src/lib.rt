//! Expressions of PromQL: the parser, from tokens to trees.
#![tactic(auto)]

mod behind;
mod braces;
mod calls;
mod class;
mod follower;
mod grouping;
mod laws;
mod machine;
mod mark;
mod mode;
mod mods;
mod names;
mod nesting;
mod operand;
mod operator;
mod parsing;
mod range;
mod reduce;
mod span;
mod stage;
mod step;

pub use laws::one_reading;
pub use parsing::parse;
