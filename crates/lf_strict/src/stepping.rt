//! What a step of a rule strictly adds to the stored samples.
ghost use Rattle.std.specs.Prelude.{IfOk};
ghost use Rattle.lf_ast.specs.Rules.{rule_tree};
ghost use Rattle.lf_witness.specs.Ascending.{IsAscending};
ghost use Rattle.lf_witness.specs.StrictRuns.{InOrder, IsRuleAnswer, StepAdds, StoredOf};
ghost use Rattle.lf_strict.specs.views.Running.{IsStep};

use crate::becoming::made_apart;
use crate::evaluating::evaluated;
use crate::lending::Samples;
use crate::store::Store;
use crate::storing::Stored;
use lf_ast::{LabelSet, Rule};
use lf_base::Memory;
use lf_nodes::is_rule_type;
use std::alloc::Global;

/// Adds what a step of a rule stores to the stored samples, and says whether the step isn't None. It may have added some where it fails.
pub fn step(alloc: Global, store: &mut Store<'_>, rule: &Rule) -> Result<bool, Memory>
    ensures { IfOk result (IsStep store.old (rule_tree rule.now) store.new) }
{
    match added(alloc, store, rule)? {
        Some(samples) => {
            store.take(alloc, samples)?;
            Ok(true)
        }
        None => Ok(false),
    }
}

/// What a step of a rule adds to the stored samples, in ascending order.
fn added<'a>(alloc: Global, store: &Store, rule: &Rule) -> Result<Option<Samples<'a>>, Memory>
    ensures { IfOk result (InOrder (StepAdds store.now (rule_tree rule.now))) }
{
    match rule_answer(alloc, store, rule)? {
        Some(samples) => stored(alloc, rule, samples),
        None => Ok(None),
    }
}

/// The samples that a rule stores of what it gives, in ascending order: none of an alert's.
fn stored<'a>(
    alloc: Global,
    rule: &Rule,
    samples: Samples<'_>,
) -> Result<Option<Samples<'a>>, Memory>
    requires { IsAscending samples }
    ensures { IfOk result (InOrder (StoredOf (rule_tree rule.now) rule.now.alert samples.entry)) }
{
    if rule.alert {
        Ok(Some(Samples::new()))
    } else {
        made_apart(alloc, &Stored { rule }, samples)
    }
}

/// What a rule gives: that of a string or a range vector is None.
fn rule_answer<'a>(
    alloc: Global,
    store: &'a Store<'a>,
    rule: &Rule,
) -> Result<Option<Samples<'a>>, Memory>
    ensures { IfOk result (IsRuleAnswer store.now (rule_tree rule.now)) }
{
    let evaluated = evaluated(alloc, store, &rule.expr)?;
    if is_rule_type(evaluated.form) {
        Ok(evaluated.answer)
    } else {
        Ok(None)
    }
}
