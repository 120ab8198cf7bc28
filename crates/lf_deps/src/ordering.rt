//! The order of rules.
ghost use Rattle.std.specs.Prelude.{◌≡◌, IfOk};
ghost use Rattle.lf_ast.specs.Rules.{rule_trees};
ghost use Rattle.lf_deps.specs.Ordering.{IsOrder};
ghost use Rattle.lf_deps.specs.views.Sources.{IsSourcesOf};

use crate::links::Links;
use crate::queue::Queue;
use crate::sources::Sources;
use lf_ast::Rule;
use lf_base::{Memory, Seq};
use std::alloc::Global;

/// The numbers of all rules, each once, so that a rule that reads no cyclic name comes behind all that it reads. Numbers that don't fit are answered like want of memory.
///
/// Each place takes the least number left whose rule selects no name that a rule left records, and where every rule left selects one, the least number left. Nothing
/// within a scalar is looked at, and a selector of no name selects every recorded name. It takes about as long as the selectors are many: each rule is looked at again
/// only once no rule left records a name that it selects, and each name of its selectors is passed once.
pub fn order(alloc: Global, rules: &Seq<Rule>) -> Result<Seq<u32>, Memory>
    ensures { IfOk result (IsOrder (rule_trees rules.now)) }
{
    let sources = Sources::of(alloc, rules)?;
    order_of(alloc, &sources, rules)
}

/// As `order`, by the index of the same rules.
pub fn order_of(alloc: Global, sources: &Sources, rules: &Seq<Rule>) -> Result<Seq<u32>, Memory>
    requires { IsSourcesOf (rule_trees rules.now) sources.now }
    ensures { IfOk result (IsOrder (rule_trees rules.now)) }
{
    let links = Links::of(alloc, sources, rules)?;
    let mut queue = Queue::of(alloc, &links)?;
    let mut order = Seq::with_capacity(alloc, rules.len())?;
    for _place in 0..rules.len() {
        let next = queue.next(&links)?;
        order.push(rule_number(next)?)?;
    }
    Ok(order)
}

/// The number of a rule, counted from 0. One that doesn't fit is answered like want of memory.
pub fn rule_number(rule: usize) -> Result<u32, Memory>
    ensures { IfOk result (λ number. number ≡ rule) }
{
    match u32::try_from(rule) {
        Ok(number) => Ok(number),
        Err(_) => Err(Memory),
    }
}
