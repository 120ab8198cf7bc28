//! The labels that rules mention, the classes of each, and rows: for each label a set of its classes.
#![tactic(auto)]

mod bits;
mod checking;
mod class_error;
mod classes;
mod laws;
mod mentions;
mod naming;
mod passing;
mod pattern_cache;
mod pattern_texts;
mod patterns;
mod range;
mod read_patterns;
mod recorded;
mod row;
mod shape;
mod strings;
mod text_map;
mod text_places;
mod text_set;
mod universe;
mod walking;
mod word;

pub use checking::{check_patterns, check_patterns_by};
pub use class_error::ClassError;
pub use laws::one_breach;
pub use passing::passes;
pub use read_patterns::ReadPatterns;
pub use recorded::recorded_names;
pub use row::Row;
pub use text_set::TextSet;
pub use universe::Universe;
