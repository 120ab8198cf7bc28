//! What `absent` and `absent_over_time` give.
ghost use Rattle.std.specs.Prelude.{◌≡◌, [], cond, IfOk, List, OnOk, Some};
ghost use Rattle.lf_ast.specs.Labels.{Labels};
ghost use Rattle.lf_ast.specs.Selectors.{is_equal};
ghost use Rattle.lf_ast.specs.Tree.{Tree, trees};
ghost use Rattle.lf_semantics.specs.Grouped.{is_metric};
ghost use Rattle.lf_semantics.specs.Parts.{sought_in};
ghost use Rattle.lf_semantics.specs.Texts.{with_label};
ghost use Rattle.lf_witness.specs.Strict.{From, IsOnlyWhereEmpty, IsSet, StrictAbsent, StrictlyEvaluates};
ghost use Rattle.lf_witness.specs.StrictRuns.{InOrder, IsStrictAnswer};
ghost use Rattle.lf_witness.proofs.SomeSample.{sought_labels};

use crate::lending::Samples;
use lf_ast::{Expr, LabelSet, MatchOp, Matcher};
use lf_base::{Memory, Text};
use lf_nodes::{is_metric, leaves_open, sought_in};
use std::alloc::Global;

/// What an `absent` of these arguments gives of an operand: None where it is open, and else its sample exactly where the operand has none.
pub fn absent<'a>(
    alloc: Global,
    args: &[Expr],
    operand: &Option<Samples<'_>>,
) -> Result<Option<Samples<'a>>, Memory>
    ensures { (W : List Labels) (e : Tree) → IsStrictAnswer W e operand.now → IfOk result (InOrder (StrictAbsent (sought_in (trees args.now)) (StrictlyEvaluates W e))) }
{
    match sought_in(args) {
        Some(sought) => {
            if leaves_open(&sought) {
                return Ok(None);
            }
            let one = sample_of(alloc, sought.matchers)?;
            where_empty(one, operand)
        }
        None => where_empty(LabelSet::new(alloc), operand),
    }
}

/// The sample exactly where the operand has none.
fn where_empty<'a>(
    one: LabelSet,
    operand: &Option<Samples<'_>>,
) -> Result<Option<Samples<'a>>, Memory>
    ensures { (W : List Labels) (e : Tree) → IsStrictAnswer W e operand.now → IfOk result (InOrder (From (StrictlyEvaluates W e) (λ P. IsSet (IsOnlyWhereEmpty one P)))) }
{
    match operand {
        Some(samples) => {
            if samples.len() > 0 {
                return Ok(Some(Samples::new()));
            }
            Ok(Some(Samples::alone(one)))
        }
        None => Ok(None),
    }
}

/// The sample with the texts that these matchers look for, of which the first is set last.
fn sample_of(alloc: Global, matchers: &[Matcher]) -> Result<LabelSet, Memory>
    ensures { IfOk result (λ sample. sample ≡ sought_labels matchers.now) }
{
    let mut sample = LabelSet::new(alloc);
    for k in 0..matchers.len() {
        set_text(alloc, &mut sample, &matchers[matchers.len() - 1 - k])?;
    }
    Ok(sample)
}

/// Sets the text that a matcher looks for: of an `=` its own, and of any other none. Of the metric name the sample has no text.
fn set_text(alloc: Global, sample: &mut LabelSet, matcher: &Matcher) -> Result<(), Memory>
    ensures { OnOk result (sample.new ≡ cond (is_metric matcher.now.label) sample.old (with_label matcher.now.label (cond (is_equal matcher.now.op) matcher.now.value []) sample.old)) }
{
    if is_metric(matcher.label.as_str()) {
        return Ok(());
    }
    match matcher.op {
        MatchOp::Equal => sample.set(&matcher.label, &matcher.value),
        _ => sample.set(&matcher.label, &Text::of(alloc, "")?),
    }
}
