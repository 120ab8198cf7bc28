//! The lines of a rule's labels.
ghost use Rattle.std.specs.Prelude.{◌≡◌, ◌<◌, ℕ, List, ◌∷◌, [], ◌++◌, codes, length, map, IfOk, OnOk};
ghost use Rattle.std.specs.Fmt.{decimal};
ghost use Rattle.lf_report.specs.Numbers.{NameRulesBelow, NamesRuleBelow, StandInFiles};
ghost use Rattle.lf_base.specs.Lines.{lines_text};
ghost use Rattle.lf_report.specs.Text.{label_line, label_lines, verdict_text};
ghost use Rattle.lf_report.specs.views.Heads.{label_head};
ghost use Rattle.lf_report.specs.views.LineIndex.{AreIndexed};

use crate::Report;
use crate::line_index::LineIndex;
use crate::places::{Naming, place_in_rule};
use crate::shown::shown_name;
use lf_ast::Verdict;
use lf_base::{Memory, Seq, Text};
use std::alloc::Global;

/// How the line of each label begins, whatever the verdict is.
pub fn label_heads(alloc: Global, names: &[Text]) -> Result<Seq<Text>, Memory>
    ensures { IfOk result (λ heads. heads ≡ map label_head names.now) }
{
    let mut heads = Seq::new(alloc);
    for name in names {
        heads.push(label_head(alloc, name.as_str())?)?;
    }
    Ok(heads)
}

/// How the line of a label begins: with its name, as it is shown.
fn label_head(alloc: Global, name: &str) -> Result<Text, Memory>
    ensures { IfOk result (λ head. head ≡ label_head name.now) }
{
    let mut head = Text::of(alloc, "  ")?;
    head.push(shown_name(alloc, name)?.as_str())?;
    head.push(": ")?;
    Ok(head)
}

/// Appends a line for each label. `labels` are how the lines begin, and `verdicts` are those on the labels.
pub fn push_labels(
    alloc: Global,
    text: &mut Text,
    report: &Report,
    indexes: &[LineIndex],
    labels: &[Text],
    verdicts: &[Verdict],
) -> Result<(), Memory>
    requires files { StandInFiles report.now }
    requires rules { NameRulesBelow (length report.now.rules) verdicts.now }
    requires indexes { AreIndexed report.now.files indexes.now }
    ensures { (names : List (List ℕ)) → labels.now ≡ map label_head names → OnOk result (text.new ≡ text.old ++ lines_text (label_lines report.now names verdicts.now)) }
{
    for k in 0..labels.len().min(verdicts.len()) {
        let head = labels[k].as_str();
        push_label(alloc, text, report, indexes, head, &verdicts[k])?;
    }
    Ok(())
}

/// Appends the line of a label, which begins so.
fn push_label(
    alloc: Global,
    text: &mut Text,
    report: &Report,
    indexes: &[LineIndex],
    head: &str,
    verdict: &Verdict,
) -> Result<(), Memory>
    requires files { StandInFiles report.now }
    requires rule { NamesRuleBelow (length report.now.rules) verdict.now }
    requires indexes { AreIndexed report.now.files indexes.now }
    ensures { (name : List ℕ) → head.now ≡ label_head name → OnOk result (text.new ≡ text.old ++ lines_text (label_line report.now name verdict.now ∷ [])) }
{
    text.push(head)?;
    push_verdict(alloc, text, report, indexes, verdict)
}

/// Appends the words of a verdict, and ends the line.
fn push_verdict(
    alloc: Global,
    text: &mut Text,
    report: &Report,
    indexes: &[LineIndex],
    verdict: &Verdict,
) -> Result<(), Memory>
    requires files { StandInFiles report.now }
    requires rule { NamesRuleBelow (length report.now.rules) verdict.now }
    requires indexes { AreIndexed report.now.files indexes.now }
    ensures { OnOk result (text.new ≡ text.old ++ (verdict_text report.now verdict.now ++ codes "\n")) }
{
    match verdict {
        Verdict::Guaranteed => text.push("guaranteed\n"),
        Verdict::Impossible => text.push("impossible\n"),
        Verdict::Possible { .. } => text.push("possible\n"),
        Verdict::Unresolved {
            construct,
            rule,
            span,
        } => {
            let place = place_in_rule(alloc, report, indexes, Naming::Shown, *rule, span.start)?;
            push_unresolved(alloc, text, *construct, place.as_str())
        }
    }
}

/// Appends that a label is unresolved by the construct with this number at a place, and ends the line.
fn push_unresolved(alloc: Global, text: &mut Text, construct: u8, place: &str) -> Result<(), Memory>
    ensures { OnOk result (text.new ≡ text.old ++ (codes "unresolved O" ++ decimal construct ++ codes " at " ++ place.now ++ codes "\n")) }
{
    let said = format!(in alloc; "unresolved O{construct} at {place}\n")?;
    text.push(said.as_str())
}
