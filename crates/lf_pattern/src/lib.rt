//! Patterns of matchers and of `label_replace`: when one matches a whole value, what a replacement expands to, the alternatives of a plain pattern, and samples of
//! any other. `regex` reads all but plain patterns.
#![tactic(auto)]

mod compiled;
mod error;
mod pattern;
mod plain;
mod plainness;
mod probe;
mod replacement;
mod sample;
mod sampling;
mod shape;
mod shape_mode;
mod writing;

pub use error::PatternError;
pub use pattern::Pattern;
pub use plain::plain_alternatives;
pub use plainness::is_plain_replacement;
pub use probe::Probe;
pub use sampling::samples;
