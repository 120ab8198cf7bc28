//! Scalars of rule files in every style of the YAML profile: the text, and for each of its bytes the source offset of what gave it.
//!
//! The public modules, `lines` and those like it, are how this crate reads a line. They are for the crates of this repository that read what stands round
//! scalars, and who only wants a scalar needs `begins_scalar` and `read_scalar` alone.
#![tactic(auto)]

mod begins;
mod block;
mod body;
mod breaks;
pub mod builder;
pub mod comments;
mod copied;
mod escapes;
mod header;
mod joined;
pub mod lines;
pub mod markers;
pub mod null_text;
mod plain;
mod plain_line;
pub mod plain_signs;
mod quoted;
mod quoted_scalar;
pub mod quotes;
mod raw_scalar;
mod reader;
mod scalar;
mod uniqueness;

pub use begins::begins_scalar;
pub use reader::read_scalar;
pub use scalar::{Scalar, Style};
pub use uniqueness::one_answer;
