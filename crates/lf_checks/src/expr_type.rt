//! expr/type: a rule whose expression is of a type that rules can't have.
ghost use Rattle.std.specs.Prelude.{◌≡◌, IfOk};
ghost use Rattle.lf_ast.specs.Rules.{rule_tree};
ghost use Rattle.lf_ast.specs.Tree.{tree};
ghost use Rattle.lf_semantics.specs.Parts.{type_by_form};
ghost use Rattle.lf_checks.specs.ExprType.{IsFound};
ghost use Rattle.lf_checks.specs.views.Shown.{ListsAlone};

use crate::case::{Case, found_if};
use lf_ast::{ExprType, Finding, Rule};
use lf_base::Memory;
use lf_nodes::is_rule_type;
use std::alloc::Global;

/// A rule that is a string or a range vector. `form` is the type of its expression.
pub(crate) fn expr_type(alloc: Global, rule: &Rule, form: ExprType) -> Result<Vec<Finding>, Memory>
    requires { form ≡ type_by_form (tree rule.now.expr) }
    ensures { IfOk result (λ found. ListsAlone (IsFound (rule_tree rule.now)) found.items) }
{
    found_if(
        alloc,
        !is_rule_type(form),
        Case::WrongType,
        rule.expr_span,
        "",
    )
}
