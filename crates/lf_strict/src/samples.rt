//! What samples become under functions, groupings and operators.
ghost use Rattle.std.proofs.Common.{sym, ◌∙◌};
ghost use Rattle.lf_semantics.specs.Evaluation.{IsGrouped, LosesName};
ghost use Rattle.lf_witness.specs.Strict.{IsCountedAsOne};

use crate::becoming::Becoming;
use crate::choosing::{AllButName, GroupLabels};
use lf_ast::{Grouping, LabelSet};
use lf_base::{Memory, Text};
use std::alloc::Global;

/// A sample loses the metric name.
#[derive(Drop)]
pub struct Nameless;

impl Becoming for Nameless {
    ghost becomes = { λ how s r. LosesName s r };

    ghost one = { λ how s t u a b. a ∙ sym b };

    fn of(&self, alloc: Global, mut sample: LabelSet) -> Result<LabelSet, Memory> {
        let metric = Text::of(alloc, "__name__")?;
        sample.set(&metric, &Text::of(alloc, "")?)?;
        Ok(sample)
    }

    fn of_lent(&self, alloc: Global, sample: &LabelSet) -> Result<LabelSet, Memory> {
        sample.kept(&AllButName)
    }
}

/// A sample becomes that of its group.
#[derive(Drop)]
pub struct Grouped<'a> {
    pub grouping: &'a Grouping,
}

impl<'a> Becoming for Grouped<'a> {
    ghost becomes = { λ how s r. IsGrouped how.grouping.now s r };

    ghost one = { λ how s t u a b. a ∙ sym b };

    fn of(&self, alloc: Global, sample: LabelSet) -> Result<LabelSet, Memory> {
        self.of_lent(alloc, &sample)
    }

    fn of_lent(&self, alloc: Global, sample: &LabelSet) -> Result<LabelSet, Memory> {
        let grouping = self.grouping;
        sample.kept(&GroupLabels { grouping })
    }
}

/// A sample becomes that of its group, with `1` as the text of a label.
#[derive(Drop)]
pub struct CountedAsOne<'a> {
    pub grouping: &'a Grouping,
    pub label: &'a Text,
}

impl<'a> Becoming for CountedAsOne<'a> {
    ghost becomes = { λ how s r. IsCountedAsOne how.grouping.now how.label.now s r };

    ghost one = { λ how s t u a b. a ∙ sym b };

    fn of(&self, alloc: Global, sample: LabelSet) -> Result<LabelSet, Memory> {
        self.of_lent(alloc, &sample)
    }

    fn of_lent(&self, alloc: Global, sample: &LabelSet) -> Result<LabelSet, Memory> {
        let grouping = self.grouping;
        let mut group = sample.kept(&GroupLabels { grouping })?;
        group.set(self.label, &Text::of(alloc, "1")?)?;
        Ok(group)
    }
}
