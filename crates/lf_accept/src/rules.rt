//! The rules of a file, each with its expression.
ghost use Rattle.std.specs.Prelude.{◌≡◌, ◌++◌, ◌∷◌, ◌≤◌, ℕ, [], map, IfOk, OnOk};
ghost use Rattle.std.specs.List.{AllZip, sum_by};
ghost use Rattle.lf_ast.specs.declared.rule.Rule.{Rule};
ghost use Rattle.lf_ast.specs.declared.rule.RuleLabel.{RuleLabel};
ghost use Rattle.lf_rules.specs.Sources.{SourcesInside, setting_in, source_in};
ghost use Rattle.lf_base.specs.Answers.{Found, Refused, RefusedIn};
ghost use Rattle.lf_ast.specs.Rules.{rule_tree, rule_trees};
ghost use Rattle.lf_accept.specs.Accepted.{BreaksExpr, IsAcceptedRule, label_of, template_of, templates_of as templates_in};
ghost use Rattle.lf_accept.specs.Allowance.{TakesAllowance, count_of_rule};
ghost use Rattle.lf_accept.specs.Taken.{RulesTake, taken_at};
ghost use Rattle.lf_accept.specs.views.Checked.{HasBreach};
ghost use Rattle.lf_scalar.specs.Scalars.{value};

use crate::allowance::PatternAllowance;
use crate::expression::read_expr;
use lf_ast::{Rule, RuleLabel, Template};
use lf_base::{Memory, Refusal, Seq};
use lf_classes::ReadPatterns;
use lf_rules::{PairInTree, RuleInTree};
use std::alloc::Global;

/// The rules as they stand in a file, each with its expression. Where their patterns count more than is left of its allowance, memory is wanting.
pub fn rules_of(
    alloc: Global,
    allowance: &mut PatternAllowance,
    known: &mut ReadPatterns,
    sources: &[RuleInTree<'_>],
    file: u32,
) -> Result<Seq<Rule>, Refusal>
    ensures found { Found rule_trees (AllZip (IsAcceptedRule file) (map source_in sources.now)) result }
    ensures refused { Refused (HasBreach (map source_in sources.now)) result }
    ensures refused_inside { (n : ℕ) → SourcesInside n (map source_in sources.now) → RefusedIn n result }
    // What the patterns of the rules count was left, and is taken.
    ensures taken { IfOk result (λ rules. TakesAllowance (sum_by count_of_rule (rule_trees rules)) allowance.old allowance.new) }
    ensures spent { Refused (λ f. (n : ℕ) × RulesTake (map source_in sources.now) n × TakesAllowance n allowance.old allowance.new) result }
{
    let mut rules = Seq::with_capacity(alloc, sources.len())?;
    for source in sources {
        push_rule(&mut rules, alloc, allowance, known, source, file)?;
    }
    Ok(rules)
}

/// Appends a rule as it stands in a file, with its expression.
fn push_rule(
    rules: &mut Seq<Rule>,
    alloc: Global,
    allowance: &mut PatternAllowance,
    known: &mut ReadPatterns,
    source: &RuleInTree<'_>,
    file: u32,
) -> Result<(), Refusal>
    ensures found { OnOk result ((rule : Rule) × (rules.new ≡ rules.old ++ rule ∷ []) × IsAcceptedRule file (source_in source.now) (rule_tree rule) × TakesAllowance (count_of_rule (rule_tree rule)) allowance.old allowance.new) }
    ensures refused { Refused (BreaksExpr (value source.now.expr.now)) result }
    ensures refused_inside { (n : ℕ) → source.now.expr.now.span.end ≤ n → RefusedIn n result }
    ensures spent { Refused (λ f. (breach : BreaksExpr (value source.now.expr.now) f) × TakesAllowance (taken_at breach) allowance.old allowance.new) result }
{
    let name = source.name.text.copy()?;
    let labels = labels_of(alloc, source.labels.as_slice())?;
    let templates = templates_of(alloc, source)?;
    let expr = read_expr(alloc, allowance, known, source.expr)?;
    let rule = Rule {
        file,
        alert: source.alert,
        name,
        name_span: source.name.span,
        expr,
        expr_span: source.expr.span,
        labels,
        templates,
    };
    rules.push(rule)?;
    Ok(())
}

/// The labels that a rule sets.
fn labels_of(alloc: Global, pairs: &[PairInTree<'_>]) -> Result<Seq<RuleLabel>, Memory>
    ensures { IfOk result (λ labels. labels ≡ map label_of (map setting_in pairs.now)) }
{
    let mut labels = Seq::with_capacity(alloc, pairs.len())?;
    for pair in pairs {
        let key = pair.key.text.copy()?;
        let value = pair.value.text.copy()?;
        labels.push(RuleLabel {
            key,
            key_span: pair.key.span,
            value,
        })?;
    }
    Ok(labels)
}

/// The texts of an alert's labels and then of its annotations; a recording rule has no templates.
fn templates_of(alloc: Global, source: &RuleInTree<'_>) -> Result<Seq<Template>, Memory>
    ensures { IfOk result (λ templates. templates ≡ templates_in (source_in source.now)) }
{
    if !source.alert {
        return Ok(Seq::new(alloc));
    }
    let count = source.labels.len().saturating_add(source.annotations.len());
    let mut templates = Seq::with_capacity(alloc, count)?;
    push_templates(&mut templates, source.labels.as_slice())?;
    push_templates(&mut templates, source.annotations.as_slice())?;
    Ok(templates)
}

/// Appends the text of each pair.
fn push_templates(templates: &mut Seq<Template>, pairs: &[PairInTree<'_>]) -> Result<(), Memory>
    ensures { OnOk result (templates.new ≡ templates.old ++ map template_of (map setting_in pairs.now)) }
{
    for pair in pairs {
        let text = pair.value.text.copy()?;
        let from = pair.value.from.copy()?;
        templates.push(Template { text, from })?;
    }
    Ok(())
}
