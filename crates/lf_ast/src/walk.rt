//! Walks over expressions, by calls for the parts that lie near and by loops with stacks of their own for those behind, so that deep expressions need no deep calls.
//!
//! `fold_up` makes a value of each expression from those of its parts, `visit` does something along an expression in the order of its text, and `nodes_of` lists it
//! with all parts in it. A caller says what is done at one expression, and nothing of stacks.

mod choosing;
mod folding;
mod listing;
mod visiting;

pub use choosing::{Parts, part_at};
pub use folding::{Fold, fold_up};
pub use listing::nodes_of;
pub use visiting::{Visitor, visit};
