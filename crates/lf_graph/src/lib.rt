//! Directed graphs: which nodes lead to which.
#![tactic(auto)]

mod buckets;
mod components;
mod counting;
mod numbering;
mod ordered;
mod search;

pub use buckets::Buckets;
pub use components::Components;
pub use counting::one_more;
