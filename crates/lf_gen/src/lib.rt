//! Rule files that are made by a rule of their own, to try the program on as many rules as are asked for; and the end of the report on them.
#![tactic(auto)]

mod ending;
mod generating;

pub use ending::last_two_lines;
pub use generating::gen_text;
