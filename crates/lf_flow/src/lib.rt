//! The row of an expression: for each label of a universe the classes that it may have on a sample.
#![tactic(auto)]

mod absence;
mod budget;
mod counting;
mod effects;
mod env;
mod grouping;
mod joining;
mod labels;
mod matching;
mod narrowing;
mod operating;
mod parts;
mod patterns;
mod reading;
mod replacing;
mod rows;
mod scraped;
mod selecting;
mod typed_row;

pub use env::Env;
pub use parts::{part_rows, part_rows_with};
pub use patterns::match_patterns;
pub use reading::{numbers_selected, reads};
pub use rows::{flow, flow_with};
pub use scraped::{read_all, scraped_if_read};
