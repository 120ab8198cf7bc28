//! What rules read, and the order in which they are judged.
#![tactic(auto)]

mod links;
mod name_graph;
mod number_queue;
mod numbers;
mod ordering;
mod queue;
mod reaching;
mod reading;
mod searching;
mod selecting;
mod sources;

pub use name_graph::NameGraph;
pub use numbers::{add_number, in_ascending_order, in_order};
pub use ordering::{order, order_of, rule_number};
pub use reading::{apart, apart_of, cyclic, cyclic_of, reach, reach_of};
pub use selecting::{is_scalar_call, selectors};
pub use sources::Sources;
