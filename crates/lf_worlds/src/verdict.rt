//! What is told of the labels of a rule.

use lf_ast::World;
use lf_base::Seq;

/// A world that shows a label, and one that shows it lacking.
#[derive(Drop)]
pub struct ShownWorlds {
    pub with: World,
    pub without: World,
}

/// What is known of a label on the samples of a rule. Most rules have worlds of few of a run's labels, and what is known of the others takes no room for them.
#[derive(Drop)]
pub enum LabelKnowledge {
    /// Each sample has it.
    Guaranteed,
    /// No sample has it.
    Impossible,
    /// A world shows a sample with it, and another one a sample without it.
    Possible { shown: Box<ShownWorlds> },
    /// Nothing is known.
    Unresolved,
}

/// What is known of the labels of a rule.
#[derive(Drop)]
pub enum RuleKnowledge {
    /// The rule never has a sample.
    Empty,
    /// One verdict for each label of the universe, `*` last.
    Labels { of: Seq<LabelKnowledge> },
}
