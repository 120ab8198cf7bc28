//! Uniform worlds: all scraped series have the same labels but for their names.
#![tactic(auto)]

mod absence;
mod effects;
mod following;
mod line;
mod naming;
mod only;
mod operators;
mod reaching;
mod required;
mod series;
mod setting;
mod table;
mod texts;
mod told;
mod uniform;

pub use uniform::Uniform;
