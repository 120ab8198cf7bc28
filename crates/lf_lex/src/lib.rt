//! Tokens of PromQL expressions: words, numbers, durations, strings and signs, with the places in the source where they stand.
#![tactic(auto)]

mod bytes;
mod class;
mod duration;
mod laws;
mod lexing;
mod run;
mod sign;
mod step;
mod string;
mod token;

pub use duration::is_duration;
pub use laws::{one_reading, wrong_escapes};
pub use lexing::lex;
pub use token::{Sign, Token, TokenKind};
