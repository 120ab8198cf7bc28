//! Forks: where samples may come from one place or from another. Which expressions have one in them, in themselves or in what they read.
#![tactic(auto)]

mod forks;
mod holding;
mod name_marks;
mod own;
mod selectors;
mod uses;

pub use forks::Forks;
pub use holding::{Held, is_or};
pub use name_marks::NameMarks;
pub use selectors::all_selectors;
