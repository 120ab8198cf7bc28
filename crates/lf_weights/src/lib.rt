//! The weights of what nodes of a graph reach.
#![tactic(auto)]

mod masks;
mod weighing;

pub use weighing::weight_reached;
