//! The series of a uniform world.
ghost use Rattle.std.specs.Prelude.{◌≡◌, IfOk, map};
ghost use Rattle.lf_ast.specs.Selectors.{metric};
ghost use Rattle.lf_classes.specs.Limits.{IsWithin};
ghost use Rattle.lf_trials.specs.Candidates.{labels_in};
ghost use Rattle.lf_trials.specs.Given.{Given, giving, label_set, losing, with_text};
ghost use Rattle.lf_semantics.specs.Grouped.{is_metric};
ghost use Rattle.lf_candidates.specs.views.ClassTexts.{Stands};

use lf_ast::LabelSet;
use lf_base::{Memory, Seq, Text};
use lf_candidates::{LabelTexts, MetricName};
use lf_classes::{TextSet, Universe};
use std::alloc::Global;

/// A series under each of some names, with the texts of the labels. The names of the labels are in their order.
pub fn series(
    alloc: Global,
    universe: &Universe,
    labels: &[Text],
    texts: &LabelTexts,
    names: &TextSet,
) -> Result<Seq<LabelSet>, Memory>
    requires universe { IsWithin universe.now }
    requires labels { labels.now ≡ labels_in universe.now }
    requires given { (D : Given) × Stands universe.now texts.now D }
    ensures { (D : Given) → Stands universe.now texts.now D → IfOk result (λ series. series ≡ map (λ name. label_set (labels_in universe.now) (giving metric name D)) names.now) }
{
    let nameless = nameless(alloc, universe, labels, texts)?;
    under_names(alloc, &labels[0], &nameless, names)
}

/// The labels of the texts, without the metric name.
fn nameless(
    alloc: Global,
    universe: &Universe,
    labels: &[Text],
    texts: &LabelTexts,
) -> Result<LabelSet, Memory>
    requires universe { IsWithin universe.now }
    requires labels { labels.now ≡ labels_in universe.now }
    requires given { (D : Given) × Stands universe.now texts.now D }
    ensures { (D : Given) → Stands universe.now texts.now D → IfOk result (λ s. s ≡ label_set (labels_in universe.now) (losing is_metric D)) }
{
    let mut texts = texts.copy()?;
    texts.lose(labels, &MetricName);
    texts.label_set(alloc, universe, labels)
}

/// These labels with each of some texts of one more label.
fn under_names(
    alloc: Global,
    label: &Text,
    labels: &LabelSet,
    names: &TextSet,
) -> Result<Seq<LabelSet>, Memory>
    ensures { IfOk result (λ series. series ≡ map (λ name. with_text label.now name labels.now) names.now) }
{
    let mut series = Seq::new(alloc);
    for place in 0..names.len() {
        series.push(with_text(label, names.get(place), labels)?)?;
    }
    Ok(series)
}

/// Labels with the text of one more, if it isn't empty.
fn with_text(label: &Text, text: &Text, labels: &LabelSet) -> Result<LabelSet, Memory>
    ensures { IfOk result (λ s. s ≡ with_text label.now text.now labels.now) }
{
    let mut labels = labels.copy()?;
    if text.len() > 0 {
        labels.set(label, text)?;
    }
    Ok(labels)
}
