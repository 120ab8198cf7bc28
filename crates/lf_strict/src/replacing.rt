//! What `label_replace` gives.
ghost use Rattle.std.specs.Prelude.{◌≡◌, IfOk, IfSome, List};
ghost use Rattle.std.specs.List.{AllZip};
ghost use Rattle.lf_ast.specs.Arguments.{texts_of};
ghost use Rattle.lf_ast.specs.Labels.{Labels};
ghost use Rattle.lf_ast.specs.Tree.{Tree, trees};
ghost use Rattle.lf_pattern.specs.Replacement.{IsPlainReplacement};
ghost use Rattle.lf_semantics.specs.Evaluation.{IsReplaced, source_value};
ghost use Rattle.lf_semantics.specs.Strings.{replacing};
ghost use Rattle.lf_witness.specs.Ascending.{IsAscending};
ghost use Rattle.lf_witness.specs.Strict.{MadeApart, Replaced, StrictlyEvaluates};
ghost use Rattle.lf_witness.specs.StrictRuns.{InOrder, IsStrictAnswer};
ghost use Rattle.lf_strict.specs.views.Replaced.{IsExpanded};

use crate::apart::apart;
use crate::lending::Samples;
use crate::selecting::text_of;
use crate::signature::push_each;
use lf_ast::{Expr, LabelSet, has_dollar, text_at};
use lf_base::names::is_label_name;
use lf_base::{Memory, Text};
use lf_pattern::{Pattern, PatternError, is_plain_replacement};
use std::alloc::Global;
use std::marker::Model;

/// The strings of a `label_replace`.
#[derive(Drop)]
struct Replacing {
    target: Text,
    replacement: Text,
    source: Text,
    pattern: Text,
}

impl Model for Replacing {
    ghost use Rattle.lf_semantics.specs.Strings.{Replacing};

    ghost Value = { Replacing };

    ghost view = { λ p. record { target = p.target; replacement = p.replacement; source = p.source; pattern = p.pattern } };
}

/// What a `label_replace` of these arguments gives of an operand: None where the replacement isn't plain, where the operand is None, and where two samples become one.
pub fn replaced<'a>(
    alloc: Global,
    args: &[Expr],
    operand: &Option<Samples<'_>>,
) -> Result<Option<Samples<'a>>, Memory>
    requires { IfSome operand.now IsAscending }
    ensures { (W : List Labels) (e : Tree) → IsStrictAnswer W e operand.now → IfOk result (InOrder (Replaced (replacing (texts_of (trees args.now))) (StrictlyEvaluates W e))) }
{
    let how = Replacing::of(alloc, args)?;
    if !is_plain_replacement(alloc, &how.replacement)? {
        return Ok(None);
    }
    match operand {
        Some(samples) => how.replaced_apart(alloc, samples),
        None => Ok(None),
    }
}

/// Equal samples.
fn copied<'a>(alloc: Global, samples: &[LabelSet]) -> Result<Samples<'a>, Memory>
    ensures { IfOk result (λ all. all ≡ samples.now) }
{
    let mut all = Vec::new(alloc);
    push_each(&mut all, samples)?;
    Ok(Samples::from_vec(all))
}

impl Replacing {
    /// The strings of a `label_replace` of these arguments.
    fn of(alloc: Global, args: &[Expr]) -> Result<Replacing, Memory>
        ensures { IfOk result (λ how. how ≡ replacing (texts_of (trees args.now))) }
    {
        let target = Text::of(alloc, text_at(args, 1))?;
        let replacement = Text::of(alloc, text_at(args, 2))?;
        let source = Text::of(alloc, text_at(args, 3))?;
        let pattern = Text::of(alloc, text_at(args, 4))?;
        Ok(Replacing {
            target,
            replacement,
            source,
            pattern,
        })
    }

    /// What the samples become, in ascending order, and None where two become one. A text that is no pattern matches nothing.
    fn replaced_apart<'a>(
        &self,
        alloc: Global,
        samples: &Samples<'_>,
    ) -> Result<Option<Samples<'a>>, Memory>
        requires ascending { IsAscending samples.now }
        requires plain { IsPlainReplacement self.now.replacement }
        ensures { IfOk result (InOrder (MadeApart (IsReplaced self.now) samples.now)) }
    {
        match Pattern::new(alloc, &self.pattern) {
            Ok(mut pattern) => {
                let made = self.each_replaced(alloc, &mut pattern, samples.as_slice())?;
                Ok(apart(made))
            }
            Err(PatternError::BadPattern) => Ok(Some(copied(alloc, samples.as_slice())?)),
            Err(PatternError::Memory) => Err(Memory),
        }
    }

    /// What each sample becomes.
    fn each_replaced(
        &self,
        alloc: Global,
        pattern: &mut Pattern,
        samples: &[LabelSet],
    ) -> Result<Vec<LabelSet>, Memory>
        requires plain { IsPlainReplacement self.now.replacement }
        requires pattern { pattern.old ≡ self.now.pattern }
        ensures { IfOk result (λ made. AllZip (IsReplaced self.now) samples.now made.items) }
    {
        let mut made = Vec::new(alloc);
        for sample in samples {
            made.push(self.replaced_in(alloc, pattern, sample)?)?;
        }
        Ok(made)
    }

    /// What a sample becomes.
    fn replaced_in(
        &self,
        alloc: Global,
        pattern: &mut Pattern,
        sample: &LabelSet,
    ) -> Result<LabelSet, Memory>
        requires plain { IsPlainReplacement self.now.replacement }
        requires pattern { pattern.old ≡ self.now.pattern }
        ensures made { IfOk result (λ made. IsReplaced self.now sample.now made) }
        ensures same { pattern.new ≡ pattern.old }
    {
        let value = Text::of(alloc, self.source_in(sample))?;
        let mut made = sample.copy()?;
        match self.expanded(alloc, pattern, &value)? {
            Some(text) => {
                made.set(&self.target, &text)?;
                Ok(made)
            }
            None => Ok(made),
        }
    }

    /// The text of the source. A source that is no label name counts as absent.
    fn source_in<'a>(&self, sample: &'a LabelSet) -> &'a str
        ensures { result.now ≡ source_value self.now sample.entry.now }
    {
        if is_label_name(self.source.as_str().as_bytes()) {
            text_of(sample, self.source.as_str())
        } else {
            ""
        }
    }

    /// What the replacement stands for where the pattern matches a value, and None where it doesn't. Without a `$` it stands for itself.
    fn expanded(
        &self,
        alloc: Global,
        pattern: &mut Pattern,
        value: &Text,
    ) -> Result<Option<Text>, Memory>
        requires plain { IsPlainReplacement self.now.replacement }
        requires pattern { pattern.old ≡ self.now.pattern }
        ensures made { IfOk result (IsExpanded self.now value.now) }
        ensures same { pattern.new ≡ pattern.old }
    {
        if has_dollar(self.replacement.as_str()) {
            return pattern.expand(alloc, value, &self.replacement);
        }
        if pattern.matches(alloc, value)? {
            Ok(Some(self.replacement.copy()?))
        } else {
            Ok(None)
        }
    }
}
