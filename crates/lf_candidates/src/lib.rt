//! Texts that labels may have: candidates, what a world is built to show, which labels go where, and the names that scraped series may have.
#![tactic(auto)]

mod candidates;
mod choosing;
mod given;
mod labels;
mod names;
mod names_left;
mod packed_row;
mod passing;
mod trial;

pub use candidates::{first_class, first_class_with, first_common_class, leaves, other_name};
pub use choosing::{
    MetricName, OneLabel, OutsideCount, OutsideGroup, SetByRule, drops, left_gives, right_gives,
};
pub use given::{LabelTexts, unless_lost};
pub use labels::label_names;
pub use names::{is_recorded, is_scraped_name, name_for, passes_as_name};
pub use packed_row::{PackedRow, WordRun};
pub use passing::{known_pass, passes_in};
pub use trial::Trial;
