//! The groups and rules of a rule file's tree, as Prometheus' documentation on recording and alerting rules has them.
#![tactic(auto)]

mod building;
mod copying;
mod entries;
mod judging;
mod judging_groups;
mod judging_rules;
mod reading;
mod source;
mod texts;
mod uniqueness;

pub use reading::{read_rules, rules_in_tree};
pub use source::{Pair, PairInTree, RuleInTree, RuleSource};
pub use uniqueness::one_answer;
