//! What the checks find of a rule.
//!
//! A finding says where a rule is likely to be mistaken. Each check stands in a file named after it.
#![tactic(auto)]

mod alert_comparison;
mod alert_template;
mod case;
mod checker;
mod expr_empty;
mod expr_type;
mod judged;
mod match_label;
mod ordering;
mod promql_regexp;
mod rule_dependency;
mod rule_duplicate;
mod rule_key;
mod rule_label;
mod telling;
mod texts;

pub use checker::{Checker, check_rule};
pub use rule_dependency::RecordedNames;
pub use texts::text_of;
