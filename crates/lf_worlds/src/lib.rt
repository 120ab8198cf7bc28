//! Worlds that show that a label can be on a sample or can be lacking, and the verdicts that they decide.
#![tactic(auto)]

mod at_most;
mod at_need;
mod each_rule;
mod leaving;
mod measure;
mod of_rule;
mod one_call;
mod readings;
mod rule_graph;
mod showing;
mod verdict;

pub use each_rule::Trials;
pub use measure::{label_selectors, label_selectors_over};
pub use one_call::trials;
pub use readings::Readings;
pub use verdict::{LabelKnowledge, RuleKnowledge, ShownWorlds};
