//! The label references of the templates that alerts' labels and annotations are.
#![tactic(auto)]

mod action;
mod body;
mod bytes;
mod finding;
mod front;
mod laws;
mod names;
mod reading;
mod reference;
mod rows;
mod saying;
mod state;
mod strings;
mod token;

pub use laws::one_reading;
pub use reading::references;
pub use reference::Reference;
