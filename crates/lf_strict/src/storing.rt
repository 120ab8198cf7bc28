//! Samples as a recording rule stores them.
ghost use Rattle.std.specs.Prelude.{◌≡◌, OnOk};
ghost use Rattle.std.proofs.Common.{sym, ◌∙◌};
ghost use Rattle.lf_ast.specs.Rules.{rule_tree};
ghost use Rattle.lf_semantics.specs.Worlds.{with_labels};
ghost use Rattle.lf_witness.specs.StrictRuns.{IsStored};

use crate::becoming::Becoming;
use lf_ast::{LabelSet, Rule, RuleLabel};
use lf_base::{Memory, Text};
use std::alloc::Global;

/// A sample becomes that which a rule stores: under the recorded name, and with the rule's labels.
#[derive(Drop)]
pub struct Stored<'a> {
    pub rule: &'a Rule,
}

impl<'a> Becoming for Stored<'a> {
    ghost becomes = { λ how s r. IsStored (rule_tree how.rule.now) s r };

    ghost one = { λ how s t u a b. a ∙ sym b };

    fn of(&self, alloc: Global, mut sample: LabelSet) -> Result<LabelSet, Memory> {
        let metric = Text::of(alloc, "__name__")?;
        sample.set(&metric, &self.rule.name)?;
        set_labels(&mut sample, self.rule.labels.as_slice())?;
        Ok(sample)
    }

    fn of_lent(&self, alloc: Global, sample: &LabelSet) -> Result<LabelSet, Memory> {
        self.of(alloc, sample.copy()?)
    }
}

/// Sets the labels of a rule, the first last. It may have set some where it fails.
fn set_labels(sample: &mut LabelSet, labels: &[RuleLabel]) -> Result<(), Memory>
    ensures { OnOk result (sample.new ≡ with_labels labels.now sample.old) }
{
    for k in 0..labels.len() {
        let label = &labels[labels.len() - 1 - k];
        sample.set(&label.key, &label.value)?;
    }
    Ok(())
}
