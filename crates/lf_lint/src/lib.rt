//! What the program does: it reads the words and the files, accepts and judges their rules, and writes the report. Its parts can be called on their own.
#![tactic(auto)]

mod linting;
mod making;
mod output;
mod reading;
mod sources;
mod status;
mod unreported;
mod writing;

pub use lf_accept::accept;
pub use lf_gen::gen_text;
pub use lf_judge::{JudgeEnd, Source, judge, measure};
pub use lf_report::{json_of, text_of};
pub use lf_words::{Options, WordFault, read_words};
pub use linting::lint;
pub use reading::{ReadEnd, read_whole};
pub use status::Status;
pub use writing::write_whole;
