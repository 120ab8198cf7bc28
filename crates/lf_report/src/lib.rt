//! Reports: what was found in files and what is told of their rules, as data, as text and as JSON.
#![tactic(auto)]

mod counting;
mod json;
mod line_index;
mod places;
mod report;
mod shown;
mod text;

pub use json::json_of;
pub use line_index::{Position, place_at, position_from};
pub use report::{FileReport, Refused, Report, ReportedFinding, RuleReport, Severity};
pub use text::text_of;
