//! What stands open first for rules with a label that stays unresolved.
ghost use Rattle.std.specs.List.{list_any};
ghost use Rattle.std.specs.Prelude.{◌≡◌, ◌≤◌, ◌<◌, true, length, IfOk};
ghost use Rattle.lf_ast.specs.Rules.{rule_trees};
ghost use Rattle.lf_open.specs.views.Firsts.{AreFirstsReady, rules_in};
ghost use Rattle.lf_worlds.specs.views.Told.{rule_verdict};
ghost use Rattle.lf_open.specs.OpenList.{IsFirstOpen};
ghost use Rattle.lf_judge.specs.Judged.{has_unresolved};
ghost use Rattle.lf_judge.specs.Limits.{most_rules};
ghost use Rattle.lf_judge.specs.views.RulesFound.{NameFirsts, first_at};

use crate::rule_found::RuleFound;
use crate::verdicts::has_unresolved;
use lf_ast::Rule;
use lf_base::{Memory, Seq};
use lf_open::{OpenAt, OpenFirsts, Opens};
use lf_worlds::RuleKnowledge;
use std::alloc::Global;

/// For each rule the first construct that stands open for it, where a label of it stays unresolved. Where no label of any rule does, nothing is looked for, and the list is
/// empty.
pub fn firsts_of(
    alloc: Global,
    rules: &Seq<Rule>,
    found: &Seq<RuleFound>,
) -> Result<Seq<Option<OpenAt>>, Memory>
    requires few { length rules.now ≤ most_rules }
    requires count { length found.now ≡ length rules.now }
    ensures { IfOk result (NameFirsts (rule_trees rules.now) found.now) }
{
    if !any_unresolved(found.as_slice()) {
        return Ok(Seq::new(alloc));
    }
    let opens = Opens::of(alloc, rules)?;
    let mut open_firsts = OpenFirsts::of(alloc, &opens)?;
    let firsts = firsts_by(alloc, &mut open_firsts, found)?;
    Ok(firsts)
}

/// Whether a label of some rule stays unresolved.
fn any_unresolved(found: &[RuleFound]) -> bool
    ensures { result ≡ list_any (λ rule. has_unresolved (rule_verdict rule.known)) found.now }
{
    found.iter().any(|rule| has_unresolved(&rule.known))
}

/// The same, by what stands open first in the rules.
fn firsts_by(
    alloc: Global,
    open_firsts: &mut OpenFirsts<'_>,
    found: &Seq<RuleFound>,
) -> Result<Seq<Option<OpenAt>>, Memory>
    requires ready { AreFirstsReady open_firsts.old }
    requires few { length found.now ≤ most_rules }
    requires count { length found.now ≡ length (rules_in open_firsts.old) }
    ensures { IfOk result (NameFirsts (rules_in open_firsts.old) found.now) }
{
    let mut firsts = Seq::new(alloc);
    for k in 0..found.len() {
        let first = open_for(alloc, open_firsts, &found.get(k).known, k as u32)?;
        firsts.push(first)?;
    }
    Ok(firsts)
}

/// The first construct that stands open for the rule with this number, where its verdicts leave a label unresolved. Elsewhere it isn't looked for.
fn open_for(
    alloc: Global,
    open_firsts: &mut OpenFirsts<'_>,
    known: &RuleKnowledge,
    number: u32,
) -> Result<Option<OpenAt>, Memory>
    requires ready { AreFirstsReady open_firsts.old }
    requires within { number < length (rules_in open_firsts.old) }
    ensures first { IfOk result (λ first. has_unresolved (rule_verdict known.now) ≡ true → IsFirstOpen (rules_in open_firsts.old) number first) }
    ensures ready { AreFirstsReady open_firsts.new }
    ensures same { rules_in open_firsts.new ≡ rules_in open_firsts.old }
{
    if has_unresolved(known) {
        return open_firsts.first(alloc, number);
    }
    Ok(None)
}

/// What is named at the number of a rule, if anything is.
pub fn first_at(firsts: &[Option<OpenAt>], number: usize) -> Option<OpenAt>
    ensures { result ≡ first_at firsts.now number }
{
    match firsts.get(number) {
        Some(first) => *first,
        None => None,
    }
}
