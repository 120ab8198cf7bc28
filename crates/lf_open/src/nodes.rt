//! What is open in the expression of a rule.
ghost use Rattle.std.specs.Prelude.{◌≡◌, List, IfOk, OnOk};
ghost use Rattle.lf_ast.specs.Rules.{RuleTree};
ghost use Rattle.lf_ast.specs.Tree.{tree};
ghost use Rattle.lf_deps.specs.Reading.{selectors};
ghost use Rattle.lf_open.specs.views.Adding.{Adds, AreFound, IsByForm, IsByItself, IsByNames, IsOpenByItself};
ghost use Rattle.lf_open.specs.views.Known.{IsKnown, IsOfRule, rules_of};

use crate::adding::add_if;
use crate::calls::is_open_absent;
use crate::construct::Construct;
use crate::forms::{add_patterns, makes_label, says_no_name};
use crate::known::RuleReadings;
use crate::names::{narrows_fork, says_cyclic_name};
use crate::open_at::OpenAt;
use crate::read_table::ReadTable;
use crate::speaking::speaking;
use crate::telling::tell;
use lf_ast::{Expr, span_of};
use lf_base::{Memory, Text};
use std::alloc::Global;

/// What is open in the expression of the rule of a number, by what it selects, in no order.
pub(crate) fn open_in(
    known: &RuleReadings<'_>,
    alloc: Global,
    rule: u32,
    selected: &[Option<Text>],
    expr: &Expr,
) -> Result<Vec<OpenAt>, Memory>
    requires known { IsKnown known.now }
    requires selected { selected.now ≡ selectors (tree expr.now) }
    requires rule { IsOfRule (rules_of known.now) (tree expr.now) }
    ensures { IfOk result (λ found. AreFound (rules_of known.now) rule (tree expr.now) found.items) }
{
    let table = ReadTable::of(alloc, known.reading, selected)?;
    let told = tell(alloc, known, &table, rule, expr)?;
    let mut found = open_by_itself(known, alloc, rule, expr)?;
    found.extend_from_slice(told.found.as_slice())?;
    Ok(found)
}

/// What is open in an expression without regard to what is told of parts.
fn open_by_itself(
    known: &RuleReadings<'_>,
    alloc: Global,
    rule: u32,
    expr: &Expr,
) -> Result<Vec<OpenAt>, Memory>
    requires { IsKnown known.now }
    ensures { IfOk result (λ found. IsOpenByItself (rules_of known.now) rule (tree expr.now) found.items) }
{
    let parts = speaking(alloc, expr)?;
    let mut found = Vec::new(alloc);
    for part in parts.as_slice() {
        add_by_itself(known, alloc, rule, part, &mut found)?;
    }
    Ok(found)
}

/// Puts what is open at an expression without regard to what is told of its parts behind others.
fn add_by_itself(
    known: &RuleReadings<'_>,
    alloc: Global,
    rule: u32,
    expr: &Expr,
    found: &mut Vec<OpenAt>,
) -> Result<(), Memory>
    requires { IsKnown known.now }
    ensures { OnOk result (Adds (IsByItself (rules_of known.now) rule (tree expr.now)) found.old.items found.new.items) }
{
    add_by_form(alloc, rule, expr, found)?;
    add_by_names(known, alloc, rule, expr, found)
}

/// Puts behind others what is open at an expression whatever the rules are.
fn add_by_form(alloc: Global, rule: u32, expr: &Expr, found: &mut Vec<OpenAt>) -> Result<(), Memory>
    ensures { (rules : List RuleTree) → OnOk result (Adds (IsByForm rules rule (tree expr.now)) found.old.items found.new.items) }
{
    let span = span_of(expr);
    let unnamed = says_no_name(expr);
    let made = makes_label(expr);
    add_if(unnamed, Construct::UnnamedSelector, rule, span, found)?;
    add_if(made, Construct::MadeLabel, rule, span, found)?;
    add_patterns(alloc, rule, expr, found)
}

/// Puts behind others what is open at a selector by the name that it says, or at an `absent` by its selector.
fn add_by_names(
    known: &RuleReadings<'_>,
    alloc: Global,
    rule: u32,
    expr: &Expr,
    found: &mut Vec<OpenAt>,
) -> Result<(), Memory>
    requires { IsKnown known.now }
    ensures { OnOk result (Adds (IsByNames (rules_of known.now) rule (tree expr.now)) found.old.items found.new.items) }
{
    let span = span_of(expr);
    let cyclic = says_cyclic_name(known, expr);
    let narrowed = narrows_fork(known, alloc, expr)?;
    let absent = is_open_absent(expr);
    add_if(cyclic, Construct::CyclicName, rule, span, found)?;
    add_if(narrowed, Construct::Forked, rule, span, found)?;
    add_if(absent, Construct::OpenAbsent, rule, span, found)
}
