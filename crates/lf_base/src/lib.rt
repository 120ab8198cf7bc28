//! The ground that every crate of ruleflow stands on: spans and places, texts and lists that contracts see as what they hold, names and sets of them, the kinds of
//! refusals, breaches and what a reader answers, and the traits of the outside with their stand-ins in memory.
#![tactic(auto)]

pub mod bytes;
mod calls;
pub mod choice;
pub mod counts;
mod fault;
mod keyed;
mod kind;
mod mem_files;
mod mem_sink;
mod memory;
mod name_set;
pub mod names;
mod outside;
mod place;
mod refusal;
mod seq;
mod strings;
mod text;

pub use fault::Fault;
pub use keyed::Keyed;
pub use kind::Kind;
pub use mem_files::MemFiles;
pub use mem_sink::MemSink;
pub use memory::Memory;
pub use name_set::NameSet;
pub use outside::{Failed, Files, Gate, OpenGate, Sink};
pub use place::{Place, Span, place_of};
pub use refusal::Refusal;
pub use seq::Seq;
pub use strings::closing;
pub use text::Text;
