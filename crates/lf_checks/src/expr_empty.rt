//! expr/empty: a rule that never has a sample, though its expression could be evaluated.
ghost use Rattle.std.specs.Prelude.{◌≡◌, IfOk};
ghost use Rattle.lf_ast.specs.Rules.{rule_tree};
ghost use Rattle.lf_ast.specs.Tree.{tree};
ghost use Rattle.lf_semantics.specs.Parts.{type_by_form};
ghost use Rattle.lf_checks.specs.ExprEmpty.{IsFound};
ghost use Rattle.lf_checks.specs.views.Shown.{ListsAlone};

use crate::case::{Case, found_if};
use lf_ast::{ExprType, Finding, Rule};
use lf_base::Memory;
use lf_classes::Row;
use lf_nodes::is_rule_type;
use std::alloc::Global;

/// A rule that is a scalar or a vector, and whose row is empty. `form` is the type of its expression.
pub(crate) fn expr_empty(
    alloc: Global,
    row: &Row,
    rule: &Rule,
    form: ExprType,
) -> Result<Vec<Finding>, Memory>
    requires { form ≡ type_by_form (tree rule.now.expr) }
    ensures { IfOk result (λ found. ListsAlone (IsFound row.now (rule_tree rule.now)) found.items) }
{
    let is_found = is_rule_type(form) && row.is_empty();
    found_if(alloc, is_found, Case::NoSample, rule.expr_span, "")
}
