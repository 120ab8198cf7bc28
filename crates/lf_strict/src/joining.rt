//! Samples under `label_join`.
ghost use Rattle.std.specs.Prelude.{◌≡◌, [], cond, eqb, map, IfOk};
ghost use Rattle.std.proofs.Common.{sym, ◌∙◌};
ghost use Rattle.lf_ast.specs.Arguments.{texts_of};
ghost use Rattle.lf_ast.specs.Tree.{trees};
ghost use Rattle.lf_semantics.specs.Evaluation.{IsJoined};
ghost use Rattle.lf_semantics.specs.Strings.{joined_by, joining};
ghost use Rattle.lf_semantics.specs.Texts.{value_of};

use crate::becoming::Becoming;
use crate::selecting::text_of as text_in;
use lf_ast::{Expr, LabelSet, text_at, text_of};
use lf_base::{Memory, Text};
use lf_nodes::joined_sources;
use std::alloc::Global;

/// A sample gets the texts of the sources, joined, as the text of the target, which an empty one removes. These are the arguments of the `label_join`.
#[derive(Drop)]
pub struct Joined<'a> {
    pub args: &'a [Expr],
}

impl<'a> Becoming for Joined<'a> {
    ghost becomes = { λ how s r. IsJoined (joining (texts_of (trees how.args.now))) s r };

    ghost one = { λ how s t u a b. a ∙ sym b };

    fn of(&self, alloc: Global, mut sample: LabelSet) -> Result<LabelSet, Memory> {
        let target = Text::of(alloc, text_at(self.args, 1))?;
        let text = joined_texts(
            alloc,
            &sample,
            text_at(self.args, 2),
            joined_sources(self.args),
        )?;
        sample.set(&target, &text)?;
        Ok(sample)
    }

    fn of_lent(&self, alloc: Global, sample: &LabelSet) -> Result<LabelSet, Memory> {
        self.of(alloc, sample.copy()?)
    }
}

/// The texts that a sample has of these sources, with a separator between each two.
fn joined_texts(
    alloc: Global,
    sample: &LabelSet,
    separator: &str,
    sources: &[Expr],
) -> Result<Text, Memory>
    ensures { IfOk result (λ text. text ≡ joined_by separator.now (map (λ source. value_of sample.now source) (texts_of (trees sources.now)))) }
{
    let mut text = Text::of(alloc, "")?;
    for k in 0..sources.len() {
        text.push(behind(k, separator))?;
        text.push(text_in(sample, text_of(&sources[k])))?;
    }
    Ok(text)
}

/// What stands behind so many texts, before the next one: nothing before the first.
fn behind(count: usize, separator: &str) -> &str
    ensures { result.now ≡ cond (eqb count 0) [] separator.entry.now }
{
    if count == 0 { "" } else { separator }
}
