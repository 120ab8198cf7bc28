//! Open constructs: what stands in the way of an answer where a label's verdict stays unresolved.
#![tactic(auto)]

mod absence;
mod adding;
mod calls;
mod choosing;
mod construct;
mod firsts;
mod forms;
mod holding;
mod known;
mod marks;
mod names;
mod nodes;
mod number_set;
mod open_at;
mod opens;
mod ordering;
mod read_graph;
mod read_table;
mod reading;
mod scalars;
mod sides;
mod speaking;
mod telling;
mod told;

pub use construct::Construct;
pub use firsts::OpenFirsts;
pub use open_at::OpenAt;
pub use opens::{Opens, open_constructs};
