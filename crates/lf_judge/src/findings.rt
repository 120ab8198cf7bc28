//! What the checks find of a rule, as a report tells it.
ghost use Rattle.std.specs.Prelude.{◌≡◌, ◌<◌, List, Some, length, map, slice_get, slice_index_or, IfOk};
ghost use Rattle.lf_ast.specs.Rules.{RuleTree};
ghost use Rattle.lf_checks.specs.Files.{File};
ghost use Rattle.lf_checks.specs.views.Shown.{all_shown, place_of, shown};
ghost use Rattle.lf_judge.specs.Judged.{finding_in, finding_told};
ghost use Rattle.lf_judge.specs.views.AtHand.{ArePartRowsAt, IsReady, TellsFindingsAt, files_at, rules_of_hand};
ghost use Rattle.lf_judge.specs.views.Checking.{TellsEmpty};

use crate::at_hand::AtHand;
use crate::wording::{check_name, severity};
use lf_ast::Finding;
use lf_base::{Memory, Seq, Text};
use lf_checks::text_of;
use lf_classes::Row;
use lf_report::{Position, ReportedFinding, place_at};
use std::alloc::Global;

/// The findings of the rule with this number, by the rows of its expression and of all parts in it.
pub fn findings_by(
    alloc: Global,
    hand: &AtHand,
    number: u32,
    rows: Vec<Row>,
) -> Result<Seq<ReportedFinding>, Memory>
    requires ready { IsReady hand.now }
    requires rule { number < length hand.now.rules.now }
    requires rows { ArePartRowsAt hand.now number rows.items }
    ensures { IfOk result (TellsFindingsAt hand.now number) }
{
    let found = hand.checker.rule_by(alloc, number, rows)?;
    let told = each_told(alloc, hand, found.as_slice())?;
    Ok(told)
}

/// The findings of the rule with this number, and whether it is empty.
pub fn findings_and_emptiness(
    alloc: Global,
    hand: &AtHand,
    number: u32,
) -> Result<(Seq<ReportedFinding>, bool), Memory>
    requires ready { IsReady hand.now }
    requires rule { number < length hand.now.rules.now }
    ensures findings { IfOk result (λ told. TellsFindingsAt hand.now number told.0) }
    ensures empty { (r : RuleTree) → slice_get (rules_of_hand hand.now) number ≡ Some r → IfOk result (λ told. TellsEmpty (rules_of_hand hand.now) hand.now.env.now number r told.1) }
{
    let (found, empty) = hand.checker.rule_and_emptiness(alloc, number)?;
    let told = each_told(alloc, hand, found.as_slice())?;
    Ok((told, empty))
}

/// Findings as a report tells them.
fn each_told(
    alloc: Global,
    hand: &AtHand,
    found: &[Finding],
) -> Result<Seq<ReportedFinding>, Memory>
    requires { IsReady hand.now }
    ensures { IfOk result (λ told. map finding_in told ≡ map finding_told (all_shown (files_at hand.now) (rules_of_hand hand.now) found.now)) }
{
    let mut told = Seq::new(alloc);
    for finding in found {
        let place = other_place(alloc, hand, finding.other)?;
        told.push(finding_told(alloc, finding, place.as_str())?)?;
    }
    Ok(told)
}

/// A finding as a report tells it. `place` is where the name of the rule stands that it names.
fn finding_told(alloc: Global, finding: &Finding, place: &str) -> Result<ReportedFinding, Memory>
    ensures { (files : List File) (rules : List RuleTree) → place.now ≡ place_of files rules finding.now.other → IfOk result (λ told. finding_in told ≡ finding_told (shown files rules finding.now)) }
{
    let text = text_of(alloc, finding, place)?;
    Ok(ReportedFinding {
        check: check_name(finding.check),
        severity: severity(finding.check),
        span: finding.span,
        text,
    })
}

/// Where the name of the rule with a number stands, if there is such a rule: `FILE:LINE:COLUMN`, with the file's name as it is.
fn other_place(alloc: Global, hand: &AtHand, other: Option<u32>) -> Result<Text, Memory>
    requires { IsReady hand.now }
    ensures { IfOk result (λ place. place ≡ place_of (files_at hand.now) (rules_of_hand hand.now) other) }
{
    let Some(number) = other else {
        return Text::of(alloc, "");
    };
    let at = number as usize;
    if at >= hand.rules.len() {
        return Text::of(alloc, "");
    }
    let file = hand.rules.get(at).file as usize;
    let name = hand.files.get(file).name.as_str();
    place_at(alloc, name, position_at(hand.names, at))
}

/// The position with this number, counted from 0.
fn position_at(names: &[Position], number: usize) -> Position
    requires { number < length names.now }
    ensures { result ≡ slice_index_or names.now number result }
{
    names[number]
}
