//! The rows of rules, and of what they record.
ghost use Rattle.std.specs.Prelude.{◌≡◌, List, IfOk, IfSome};
ghost use Rattle.lf_ast.specs.Functions.{function_named};
ghost use Rattle.lf_ast.specs.Rules.{RuleTree, rule_tree};
ghost use Rattle.lf_ast.specs.Selectors.{metric};
ghost use Rattle.lf_ast.specs.Tree.{tree};
ghost use Rattle.lf_semantics.specs.ClassRows.{HasShape};
ghost use Rattle.lf_semantics.specs.Environments.{CoversRules, IsEnvironment, IsLeast, recorded_row as row_recorded, rule_row as row_of_rule, with_text, with_texts};
ghost use Rattle.lf_semantics.specs.Laws.{RepresentsRule, SetNoNames};
ghost use Rattle.lf_semantics.specs.Listing.{IsListing};
ghost use Rattle.lf_semantics.specs.RowTable.{Environment, row_of, scraped_row};
ghost use Rattle.lf_semantics.specs.Parts.{given_by, is_evaluated, type_by_form};

use lf_ast::{Expr, Function, Rule, RuleLabel};
use lf_base::Memory;
use lf_classes::{Row, Universe};
use lf_flow::{Env, flow_with};
use lf_nodes::is_rule_type;
use std::alloc::Global;

/// The row of a rule in an environment: that of its expression, and the empty row for a string or a range vector, of which nothing is recorded.
///
/// In the least environment of rules it represents, over every world of these rules, each sample of the rule.
pub fn rule_row(alloc: Global, universe: &Universe, env: &Env, rule: &Rule) -> Result<Row, Memory>
    requires env { IsEnvironment universe.now env.now }
    ensures row { IfOk result (λ row. row ≡ row_of_rule universe.now env.now (rule_tree rule.now)) }
    ensures represents { (rules : List RuleTree) → CoversRules universe.now rules → SetNoNames rules → IsLeast universe.now rules env.now → IfOk result (RepresentsRule universe.now rules (rule_tree rule.now)) }
{
    rule_row_with(alloc, universe, env, None, rule)
}

/// As `rule_row`, by the row of all scraped series where it is at hand.
pub fn rule_row_with(
    alloc: Global,
    universe: &Universe,
    env: &Env,
    scraped: Option<&Row>,
    rule: &Rule,
) -> Result<Row, Memory>
    requires env { IsEnvironment universe.now env.now }
    requires scraped { IfSome scraped (λ row. row.now ≡ scraped_row universe.now env.now) }
    ensures row { IfOk result (λ row. row ≡ row_of_rule universe.now env.now (rule_tree rule.now)) }
    ensures represents { (rules : List RuleTree) → CoversRules universe.now rules → SetNoNames rules → IsLeast universe.now rules env.now → IfOk result (RepresentsRule universe.now rules (rule_tree rule.now)) }
{
    // For what its contract says of the universe.
    let _labels = universe.labels();
    row_in(alloc, universe, env, scraped, rule)
}

/// The row of a rule in an environment.
fn row_in(
    alloc: Global,
    universe: &Universe,
    env: &Env,
    scraped: Option<&Row>,
    rule: &Rule,
) -> Result<Row, Memory>
    requires env { IsEnvironment universe.now env.now }
    requires scraped { IfSome scraped (λ row. row.now ≡ scraped_row universe.now env.now) }
    ensures { IfOk result (λ row. row ≡ row_of_rule universe.now env.now (rule_tree rule.now)) }
{
    if is_evaluated(&rule.expr) {
        flow_with(alloc, universe, env, scraped, &rule.expr)
    } else {
        Row::empty(alloc, universe)
    }
}

/// The row of a rule, of that of its expression: the same where the expression is a scalar or a vector, and else the empty one.
pub fn rule_row_by(
    alloc: Global,
    universe: &Universe,
    rule: &Rule,
    row: &Row,
) -> Result<Row, Memory>
    ensures { (e : Environment) → row.now ≡ row_of universe.now e (rule_tree rule.now).expr → IfOk result (λ own. own ≡ row_of_rule universe.now e (rule_tree rule.now)) }
{
    if !is_evaluated(&rule.expr) {
        return Row::empty(alloc, universe);
    }
    row.copy()
}

/// The row of what a recording rule stores: that of the rule, with its name and its labels set.
pub fn recorded_row(
    alloc: Global,
    universe: &Universe,
    env: &Env,
    rule: &Rule,
) -> Result<Row, Memory>
    requires listing { IsListing universe.now }
    requires env { IsEnvironment universe.now env.now }
    ensures { IfOk result (λ row. row ≡ row_recorded universe.now env.now (rule_tree rule.now)) }
{
    recorded_row_with(alloc, universe, env, None, rule)
}

/// As `recorded_row`, by the row of all scraped series where it is at hand.
pub(crate) fn recorded_row_with(
    alloc: Global,
    universe: &Universe,
    env: &Env,
    scraped: Option<&Row>,
    rule: &Rule,
) -> Result<Row, Memory>
    requires listing { IsListing universe.now }
    requires env { IsEnvironment universe.now env.now }
    requires scraped { IfSome scraped (λ row. row.now ≡ scraped_row universe.now env.now) }
    ensures { IfOk result (λ row. row ≡ row_recorded universe.now env.now (rule_tree rule.now)) }
{
    let mut row = row_in(alloc, universe, env, scraped, rule)?;
    make_recorded(universe, &mut row, rule);
    Ok(row)
}

/// Makes of the row of a rule the row of what it stores: its name and its labels are set. The empty row stays empty.
pub fn make_recorded(universe: &Universe, row: &mut Row, rule: &Rule)
    requires listing { IsListing universe.now }
    requires shape { HasShape universe.now row.old }
    ensures { row.new ≡ with_texts universe.now (rule_tree rule.now).labels (with_text universe.now metric (rule_tree rule.now).name row.old) }
{
    set_text(universe, row, "__name__", rule.name.as_str());
    set_labels(universe, row, rule.labels.as_slice());
}

/// Whether an expression is a scalar or a vector, so that a rule of it gives samples.
fn is_evaluated(expr: &Expr) -> bool
    ensures { result ≡ is_evaluated (type_by_form (tree expr.now)) }
{
    let mut inner = expr;
    loop {
        match inner {
            Expr::Number { .. } => return true,
            Expr::Str { .. } => return false,
            Expr::Selector { sight, .. } => return sight.range.is_none(),
            Expr::Subquery { .. } => return false,
            Expr::Paren { of, .. } => inner = of,
            Expr::Unary { of, .. } => inner = of,
            Expr::Binary { .. } => return true,
            Expr::Call { name, .. } => return gives_samples(name.as_str()),
            Expr::Aggregate { .. } => return true,
        }
    }
}

/// Whether a function of this name gives a scalar or a vector.
fn gives_samples(name: &str) -> bool
    ensures { result ≡ is_evaluated (given_by (function_named name.now)) }
{
    match Function::named(name) {
        Some(function) => is_rule_type(function.gives),
        None => true,
    }
}

/// Leaves a label only one text. The empty row stays empty.
fn set_text(universe: &Universe, row: &mut Row, name: &str, text: &str)
    requires listing { IsListing universe.now }
    requires shape { HasShape universe.now row.old }
    ensures { row.new ≡ with_text universe.now name.now text.now row.old }
{
    let label = universe.label_of(name);
    let class = universe.class_of(label, text);
    row.set_class(label, class);
}

/// Leaves each label of a rule only its text, the first label last.
fn set_labels(universe: &Universe, row: &mut Row, labels: &[RuleLabel])
    requires listing { IsListing universe.now }
    requires shape { HasShape universe.now row.old }
    ensures { row.new ≡ with_texts universe.now labels.now row.old }
{
    let mut left = labels.len();
    while left > 0 {
        left -= 1;
        let label = &labels[left];
        set_text(universe, row, label.key.as_str(), label.value.as_str());
    }
}
