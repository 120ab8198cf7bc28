//! The words of the command line: what they ask for, or that they ask for nothing.
#![tactic(auto)]

mod asking;
mod fault;
mod gen_words;
mod laws;
mod lint;
mod number;
mod options;
mod seen;
mod word_kind;
mod words;

pub use fault::WordFault;
pub use laws::one_reading;
pub use options::Options;
pub use words::read_words;
