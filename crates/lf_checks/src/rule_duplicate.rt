//! rule/duplicate: recording rules that stand before.
ghost use Rattle.std.specs.Prelude.{◌≡◌, ◌++◌, ◌∷◌, ℕ, [], Bool, List, Some, false, length, slice_get, take, IfOk, OnOk};
ghost use Rattle.lf_ast.specs.Rules.{RuleTree, rule_tree, rule_trees};
ghost use Rattle.lf_checks.specs.Files.{File, StandIn};
ghost use Rattle.lf_deps.specs.views.Sources.{IsSourcesOf};
ghost use Rattle.lf_checks.specs.RuleDuplicate.{IsFound};
ghost use Rattle.lf_checks.specs.views.Duplicates.{AreFirsts, AreKept, HaveNone, IsFirstOf, is_shared};
ghost use Rattle.lf_checks.specs.views.Shown.{AreNumbered, Lists};

use crate::case::same_rule;
use crate::rule_key::key_of;
use lf_ast::{Finding, Rule};
use lf_base::{Memory, Seq};
use lf_classes::TextSet;
use lf_deps::{Sources, rule_number};
use std::alloc::Global;

/// For each rule the number of the first one before it that is the same, if there is one. Each rule whose name several record is written out once, and
/// looked up in a map, so it takes about as long as the rules are long, times the logarithm of their number. A number that doesn't fit is answered like want of memory.
pub(crate) fn first_rules(
    alloc: Global,
    rules: &Seq<Rule>,
    sources: &Sources,
) -> Result<Vec<Option<u32>>, Memory>
    requires { IsSourcesOf (rule_trees rules.now) sources.now }
    ensures { IfOk result (λ firsts. AreFirsts (rule_trees rules.now) firsts.items) }
{
    let mut first_rules = FirstRules {
        keys: TextSet::new(alloc),
        numbers: Vec::new(alloc),
    };
    let mut firsts = Vec::new(alloc);
    for place in 0..rules.len() {
        let rule = rules.get(place);
        let shared = is_shared(sources, rule.name.as_str());
        let first = first_rules.first(alloc, place, rule, shared)?;
        firsts.push(first)?;
    }
    Ok(firsts)
}

/// Whether several rules record the name.
fn is_shared(sources: &Sources, name: &str) -> bool
    ensures { result ≡ is_shared sources.now name.now }
{
    sources.makers_of(name).len() > 1
}

/// What recording rules whose name several record are written as, each text once, and the number of the first rule that is written so.
#[derive(Drop)]
struct FirstRules {
    keys: TextSet,
    numbers: Vec<u32>,
}

impl FirstRules {
    /// The first of the rules so far that is the same as another one, which comes behind them and is kept if it is the first. `shared` says that several rules
    /// record its name: where that stands once, no rule is the same.
    fn first(
        &mut self,
        alloc: Global,
        place: usize,
        rule: &Rule,
        shared: bool,
    ) -> Result<Option<u32>, Memory>
        ensures first { (rules : List RuleTree) (among : List ℕ → Bool) → length rules ≡ place → AreKept among rules self.old.keys self.old.numbers.items → among rule.now.name ≡ shared → (shared ≡ false → rule.now.alert ≡ false → HaveNone rules (rule_tree rule.now)) → IfOk result (IsFirstOf rules (rule_tree rule.now)) }
        ensures kept { (rules : List RuleTree) (among : List ℕ → Bool) → length rules ≡ place → AreKept among rules self.old.keys self.old.numbers.items → among rule.now.name ≡ shared → OnOk result (AreKept among (rules ++ rule_tree rule.now ∷ []) self.new.keys self.new.numbers.items) }
    {
        if rule.alert {
            return Ok(None);
        }
        if !shared {
            return Ok(None);
        }
        let key = key_of(alloc, rule)?;
        let at = self.keys.add(alloc, key.as_str())?;
        if at < self.numbers.len() {
            return Ok(Some(self.numbers[at]));
        }
        self.numbers.push(rule_number(place)?)?;
        Ok(None)
    }
}

/// What the check finds of a rule, by the first one before it that is the same.
pub(crate) fn rule_duplicate(
    alloc: Global,
    first: Option<u32>,
    rule: &Rule,
) -> Result<Vec<Finding>, Memory>
    ensures findings { (files : List File) (rules : List RuleTree) (i : ℕ) → StandIn files rules → slice_get rules i ≡ Some (rule_tree rule.now) → IsFirstOf (take i rules) (rule_tree rule.now) first → IfOk result (λ found. Lists files rules (IsFound files rules i (rule_tree rule.now)) found.items) }
    ensures numbers { (files : List File) (rules : List RuleTree) (i : ℕ) → slice_get rules i ≡ Some (rule_tree rule.now) → IsFirstOf (take i rules) (rule_tree rule.now) first → IfOk result (λ found. AreNumbered files rules i found.items) }
{
    let mut found = Vec::new(alloc);
    match first {
        Some(first) => {
            found.push(same_rule(alloc, rule.name_span, first)?)?;
            Ok(found)
        }
        None => Ok(found),
    }
}
