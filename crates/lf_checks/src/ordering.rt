//! The order of findings.
ghost use Rattle.std.specs.Prelude.{◌≡◌, ◌++◌, List, map, IfOk, OnOk};
ghost use Rattle.std.specs.List.{All, Contains};
ghost use Rattle.lf_laws.specs.Ascending.{IsInOrder};
ghost use Rattle.lf_ast.specs.Rules.{RuleTree};
ghost use Rattle.lf_checks.specs.Files.{File};
ghost use Rattle.lf_checks.specs.Finding.{finding_cmp, rank};
ghost use Rattle.lf_checks.specs.views.Cases.{check_at};
ghost use Rattle.lf_checks.specs.views.InOrder.{OneDuplicate, keyed, row_key};
ghost use Rattle.lf_checks.specs.views.Shown.{all_shown};

use crate::texts::text_of;
use lf_ast::Finding;
use lf_base::{Keyed, Memory, Seq};
use std::alloc::Global;

/// The findings in their order, each once. Of one that names another rule the place of that rule isn't looked at: there is one at most.
pub(crate) fn in_order(alloc: Global, found: Vec<Finding>) -> Result<Seq<Finding>, Memory>
    ensures order { IfOk result (λ sorted. (files : List File) (rules : List RuleTree) → OneDuplicate (all_shown files rules found.items) → IsInOrder finding_cmp (all_shown files rules found.items) (all_shown files rules sorted)) }
    ensures given { IfOk result (All (Contains found.items)) }
{
    // Most rules have one finding at most.
    if found.len() <= 1 {
        return Ok(Seq::from_vec(found));
    }
    let mut keyed = with_keys(alloc, found)?;
    keyed.sort_unstable();
    keyed.dedup();
    let sorted = findings_of(alloc, keyed)?;
    Ok(Seq::from_vec(sorted))
}

/// The findings with their keys.
fn with_keys(alloc: Global, found: Vec<Finding>) -> Result<Vec<Keyed<Finding>>, Memory>
    ensures { IfOk result (λ all. all.items ≡ map keyed found.items) }
{
    let mut all = Vec::new(alloc);
    for finding in found {
        let key = key_of(alloc, &finding)?;
        all.push(Keyed { key, item: finding })?;
    }
    Ok(all)
}

/// What a finding is ordered by: the number of its check, the start and the end of its span, and the bytes of its text, in which the place of a rule that it names is left out.
fn key_of(alloc: Global, finding: &Finding) -> Result<Seq<u32>, Memory>
    ensures { IfOk result (λ key. key ≡ row_key finding.now) }
{
    let text = text_of(alloc, finding, "")?;
    let mut key = Seq::new(alloc);
    key.push(u32::from(rank(finding)))?;
    key.push(finding.span.start)?;
    key.push(finding.span.end)?;
    push_bytes(&mut key, text.as_str())?;
    Ok(key)
}

/// Puts the bytes of a text behind a key.
fn push_bytes(key: &mut Seq<u32>, text: &str) -> Result<(), Memory>
    ensures { OnOk result (key.new ≡ key.old ++ text.now) }
{
    for byte in text.as_bytes() {
        key.push(u32::from(*byte))?;
    }
    Ok(())
}

/// The number of a finding's check in the table of checks.
fn rank(finding: &Finding) -> u8
    ensures { result ≡ rank (check_at finding.now.check) }
{
    match finding.check {
        1..=8 => finding.check,
        _ => 9,
    }
}

/// The findings without their keys.
fn findings_of(alloc: Global, keyed: Vec<Keyed<Finding>>) -> Result<Vec<Finding>, Memory>
    ensures { IfOk result (λ found. found.items ≡ map (λ k. k.item) keyed.items) }
{
    let found = keyed.into_iter().map(|keyed| keyed.item).collect(alloc)?;
    Ok(found)
}
