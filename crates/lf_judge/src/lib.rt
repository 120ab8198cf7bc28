//! What is told of the rules of files: which files are refused, the verdicts on the labels of each rule, and its findings.
#![tactic(auto)]

mod accepting;
mod allowance;
mod at_hand;
mod findings;
mod firsts;
mod judge_end;
mod judging;
mod measuring;
mod moving;
mod name_positions;
mod rule_found;
mod rule_read;
mod source;
mod telling;
mod verdicts;
mod wording;

pub use judge_end::JudgeEnd;
pub use judging::{judge, one_report};
pub use measuring::measure;
pub use source::Source;
