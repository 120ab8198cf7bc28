//! The texts that operands get.
ghost use Rattle.std.specs.Prelude.{◌≡◌, Bool, codes, length, map};
ghost use Rattle.std.specs.Str.{bytes_eq};
ghost use Rattle.lf_ast.specs.Labels.{Bytes};
ghost use Rattle.lf_ast.specs.Tree.{trees};
ghost use Rattle.lf_ast.specs.declared.expr.Grouping.{Grouping};
ghost use Rattle.lf_classes.specs.Limits.{IsWithin};
ghost use Rattle.lf_semantics.specs.Listing.{Listing};
ghost use Rattle.lf_trials.specs.Candidates.{labels_in};
ghost use Rattle.lf_trials.specs.Given.{Given, giving, losing};
ghost use Rattle.lf_trials.specs.Operands.{effect_texts, losing_name};
ghost use Rattle.lf_candidates.specs.views.ClassTexts.{KnowsBuckets, Stands, StandsFor};
ghost use Rattle.lf_built.specs.views.Marking.{effect_lost};
ghost use Rattle.lf_built.specs.views.Tasks.{nameless_if};

use lf_ast::{Expr, LabelEffect, text_at};
use lf_base::Text;
use lf_candidates::{LabelTexts, MetricName, OneLabel, unless_lost};
use lf_classes::Universe;

/// The texts that the operand of a function or an aggregation with this effect gets, and none where nothing is built. The names are those of the labels, in their order.
/// Where the effect goes by a group, the labels that the operand doesn't get are marked as lost.
pub fn operand_texts(
    universe: &Universe,
    names: &[Text],
    effect: LabelEffect,
    lost: &[bool],
    args: &[Expr],
    texts: LabelTexts,
) -> Option<LabelTexts>
    requires universe { IsWithin universe.now }
    requires names { names.now ≡ labels_in universe.now }
    requires count { length texts ≡ length names.now }
    requires lost { (grouping : Grouping) × (lost.now ≡ effect_lost names.now effect grouping (trees args.now)) }
    requires buckets { effect ≡ LabelEffect.HistogramQuantile → KnowsBuckets universe.now }
    ensures { (grouping : Grouping) (D : Given) → lost.now ≡ effect_lost names.now effect grouping (trees args.now) → Stands universe.now texts D → StandsFor universe.now result (effect_texts effect grouping (trees args.now) D) }
{
    match effect {
        LabelEffect::Maps => Some(without_name(names, texts)),
        LabelEffect::Keeps => Some(texts),
        LabelEffect::Groups => Some(without_marked(lost, texts)),
        LabelEffect::CountValues => Some(without_marked(lost, texts)),
        LabelEffect::Date => match args {
            [] => None,
            [_, ..] => Some(without_name(names, texts)),
        },
        LabelEffect::Absent => None,
        LabelEffect::LabelReplace | LabelEffect::LabelJoin => {
            Some(without_label(names, text_at(args, 1), texts))
        }
        LabelEffect::HistogramQuantile => Some(last_bucket(universe, names, texts)),
        LabelEffect::Bare => None,
    }
}

/// Texts without the metric name where it is dropped.
pub fn nameless_if(drops: bool, names: &[Text], texts: LabelTexts) -> LabelTexts
    requires { length texts ≡ length names.now }
    ensures { (u : Listing) (D : Given) → IsWithin u → names.now ≡ labels_in u → Stands u texts D → Stands u result (nameless_if drops D) }
{
    if drops {
        without_name(names, texts)
    } else {
        texts
    }
}

/// Texts without the metric name.
fn without_name(names: &[Text], mut texts: LabelTexts) -> LabelTexts
    requires { length texts ≡ length names.now }
    ensures count { length result ≡ length names.now }
    ensures texts { (u : Listing) (D : Given) → IsWithin u → names.now ≡ labels_in u → Stands u texts D → Stands u result (losing_name D) }
{
    texts.lose(names, &MetricName);
    texts
}

/// Texts without a label.
fn without_label(names: &[Text], name: &str, mut texts: LabelTexts) -> LabelTexts
    requires { length texts ≡ length names.now }
    ensures { (u : Listing) (D : Given) → IsWithin u → names.now ≡ labels_in u → Stands u texts D → Stands u result (losing (bytes_eq name.now) D) }
{
    texts.lose(names, &OneLabel { name });
    texts
}

/// Texts without the labels that are marked.
pub fn without_marked(marks: &[bool], mut texts: LabelTexts) -> LabelTexts
    requires { length texts ≡ length marks.now }
    ensures { (u : Listing) (lost : Bytes → Bool) (D : Given) → IsWithin u → marks.now ≡ map lost (labels_in u) → Stands u texts D → Stands u result (losing lost D) }
{
    for label in 0..marks.len() {
        let lost = marks[label];
        texts.put(label, unless_lost(lost, texts.get(label)));
    }
    texts
}

/// Texts without the metric name, and with that of the last bucket.
fn last_bucket(universe: &Universe, names: &[Text], texts: LabelTexts) -> LabelTexts
    requires universe { IsWithin universe.now }
    requires names { names.now ≡ labels_in universe.now }
    requires count { length texts ≡ length names.now }
    requires buckets { KnowsBuckets universe.now }
    ensures { (D : Given) → Stands universe.now texts D → Stands universe.now result (giving (codes "le") (codes "+Inf") (losing_name D)) }
{
    let mut texts = without_name(names, texts);
    let label = universe.label_of("le");
    texts.give(label, universe.class_of(label, "+Inf"));
    texts
}
