//! The row of an expression.
ghost use Rattle.std.specs.Prelude.{◌≡◌, List, Some, map, IfOk, IfSome};
ghost use Rattle.std.specs.List.{Contains};
ghost use Rattle.std.specs.Option.{option_map};
ghost use Rattle.lf_ast.specs.Functions.{called_by, signature_of};
ghost use Rattle.lf_ast.specs.Labels.{Labels};
ghost use Rattle.lf_ast.specs.Tree.{parts_of, tree, trees};
ghost use Rattle.lf_ast.specs.views.Walks.{chosen};
ghost use Rattle.lf_semantics.specs.ClassRows.{Represents};
ghost use Rattle.lf_semantics.specs.Environments.{Admits, Covers, IsEnvironment};
ghost use Rattle.lf_semantics.specs.Evaluation.{Evaluates};
ghost use Rattle.lf_semantics.specs.Laws.{GrowsFrom};
ghost use Rattle.lf_semantics.specs.Listing.{IsListing};
ghost use Rattle.lf_semantics.specs.Parts.{given_by, type_by_form};
ghost use Rattle.lf_semantics.specs.RowTable.{Environment, call_row, row_at, row_of, scraped_row};
ghost use Rattle.lf_flow.specs.views.Kept.{kept_row, typed_operand, typed_row_of};
ghost use Rattle.lf_nodes.specs.views.Needed.{parts_needed};

use crate::Env;
use crate::typed_row::{TypedRow, binary, called, empty, number, ranged, selector, signed, whole};
use lf_ast::walk::{Fold, Parts, fold_up};
use lf_ast::{Expr, ExprType, Function, Grouping};
use lf_base::{Memory, Seq};
use lf_classes::{Row, Universe};
use lf_nodes::{at_most_one, both, parts_needed, the_only};
use std::alloc::Global;
use std::marker::Model;

/// The row of an expression in an environment, by the table of constructs. A range vector has the row of its selector or subquery, a scalar that of the one sample
/// without labels, and a string the empty row.
///
/// The row represents each sample that the expression may give, over any scraped series and recorded samples that the environment admits, if the universe covers the
/// expression. It grows with the environment.
pub fn flow(alloc: Global, universe: &Universe, env: &Env, expr: &Expr) -> Result<Row, Memory>
    requires env { IsEnvironment universe.now env.now }
    ensures table { IfOk result (λ row. row ≡ row_of universe.now env.now (tree expr.now)) }
    ensures sound { (S N R : List Labels) (s : Labels) → Covers universe.now (tree expr.now) → Admits universe.now env.now S N → Evaluates S N (tree expr.now) R → Contains R s → IfOk result (λ row. Represents universe.now row s) }
    ensures grows { IfOk result (GrowsFrom universe.now env.now (tree expr.now)) }
{
    flow_with(alloc, universe, env, None, expr)
}

/// As `flow`, by the row of all scraped series where it is at hand.
pub fn flow_with(
    alloc: Global,
    universe: &Universe,
    env: &Env,
    scraped: Option<&Row>,
    expr: &Expr,
) -> Result<Row, Memory>
    requires env { IsEnvironment universe.now env.now }
    requires scraped { IfSome scraped (λ row. row.now ≡ scraped_row universe.now env.now) }
    ensures table { IfOk result (λ row. row ≡ row_of universe.now env.now (tree expr.now)) }
    ensures sound { (S N R : List Labels) (s : Labels) → Covers universe.now (tree expr.now) → Admits universe.now env.now S N → Evaluates S N (tree expr.now) R → Contains R s → IfOk result (λ row. Represents universe.now row s) }
    ensures grows { IfOk result (GrowsFrom universe.now env.now (tree expr.now)) }
{
    let _labels = universe.labels();
    let told = row(alloc, universe, env, scraped, expr)?;
    Ok(told)
}

/// The same, of a universe that is known to be one.
fn row(
    alloc: Global,
    universe: &Universe,
    env: &Env,
    scraped: Option<&Row>,
    expr: &Expr,
) -> Result<Row, Memory>
    requires listing { IsListing universe.now }
    requires env { IsEnvironment universe.now env.now }
    requires scraped { IfSome scraped (λ row. row.now ≡ scraped_row universe.now env.now) }
    ensures { IfOk result (λ row. row ≡ row_of universe.now env.now (tree expr.now)) }
{
    let rows = Rows {
        universe,
        env,
        scraped,
    };
    let whole = fold_up(alloc, &rows, expr)?;
    whole.into_row(alloc, universe)
}

/// Makes the row of an expression of those of its parts, in an environment, and takes the row of all scraped series where it is at hand. Of the arguments of a call only the
/// operand is looked at.
#[derive(Drop)]
pub(crate) struct Rows<'a> {
    pub(crate) universe: &'a Universe,
    pub(crate) env: &'a Env,
    pub(crate) scraped: Option<&'a Row>,
}

impl<'a> Model for Rows<'a> {
    ghost use Rattle.lf_semantics.specs.Environments.{IsEnvironment};
    ghost use Rattle.lf_semantics.specs.Listing.{IsListing, Listing};
    ghost use Rattle.lf_semantics.specs.RowTable.{Environment, scraped_row};
    ghost use Rattle.std.specs.Prelude.{◌≡◌, IfSome};

    ghost Value = { Listing × Environment };

    ghost view = { λ rows. (rows.universe.now, rows.env.now) };

    ghost invariant = { λ rows. IsListing rows.universe.now × IsEnvironment rows.universe.now rows.env.now × IfSome rows.scraped (λ row. row.now ≡ scraped_row rows.universe.now rows.env.now) };
}

impl<'a> Fold for Rows<'a> {
    type Value = TypedRow;

    type Note = Option<Function>;

    ghost use Rattle.std.specs.Prelude.{◌≡◌};
    ghost use Rattle.std.specs.Option.{option_map};
    ghost use Rattle.lf_ast.specs.Functions.{called_by, signature_of};
    ghost use Rattle.lf_flow.specs.views.Kept.{typed_row_of};
    ghost use Rattle.lf_nodes.specs.views.Needed.{parts_needed};

    ghost value = { λ rows e. typed_row_of rows.0 rows.1 e };

    ghost needed = { λ rows e. parts_needed e };

    ghost notes = { λ e function. option_map signature_of function ≡ called_by e };

    fn enter(&self, expr: &Expr) -> (Parts, Option<Function>) {
        let function = Function::called_by(expr);
        (parts_needed(expr, &function), function)
    }

    fn step(
        &self,
        alloc: Global,
        expr: &Expr,
        function: Option<Function>,
        values: Vec<TypedRow>,
    ) -> Result<TypedRow, Memory>
        requires function { option_map signature_of function ≡ called_by (tree expr.now) }
        requires values { values.items ≡ map (typed_row_of self.now.0 self.now.1) (chosen (parts_needed (tree expr.now)) (parts_of (tree expr.now))) }
        ensures { IfOk result (λ made. made ≡ typed_row_of self.now.0 self.now.1 (tree expr.now)) }
    {
        typed_row(
            alloc,
            self.universe,
            self.env,
            self.scraped,
            expr,
            function,
            values,
        )
    }
}

/// What is told of an expression, from what it calls and what is told of its parts.
fn typed_row(
    alloc: Global,
    universe: &Universe,
    env: &Env,
    scraped: Option<&Row>,
    expr: &Expr,
    function: Option<Function>,
    parts: Vec<TypedRow>,
) -> Result<TypedRow, Memory>
    requires listing { IsListing universe.now }
    requires env { IsEnvironment universe.now env.now }
    requires scraped { IfSome scraped (λ row. row.now ≡ scraped_row universe.now env.now) }
    requires function { option_map signature_of function ≡ called_by (tree expr.now) }
    requires parts { parts.items ≡ map (typed_row_of universe.now env.now) (chosen (parts_needed (tree expr.now)) (parts_of (tree expr.now))) }
    ensures row { IfOk result (λ typed. typed.row ≡ kept_row universe.now env.now (tree expr.now)) }
    ensures form { IfOk result (λ typed. typed.form ≡ type_by_form (tree expr.now)) }
{
    match expr {
        Expr::Number { .. } => Ok(number()),
        Expr::Str { .. } => empty(alloc, universe, ExprType::Str),
        Expr::Selector {
            name,
            matchers,
            sight,
            ..
        } => selector(
            alloc,
            universe,
            env,
            scraped,
            name,
            matchers.as_slice(),
            &sight.range,
        ),
        Expr::Subquery { .. } => ranged(alloc, universe, the_only(parts)),
        Expr::Paren { .. } => whole(alloc, universe, the_only(parts)),
        Expr::Unary { minus, .. } => signed(alloc, universe, *minus, the_only(parts)),
        Expr::Binary { op, modifier, .. } => {
            let (left, right) = both(parts);
            binary(alloc, universe, *op, modifier, left, right)
        }
        Expr::Call { args, .. } => {
            let grouping = &Grouping::None;
            call(alloc, universe, function, grouping, args, parts)
        }
        Expr::Aggregate { grouping, args, .. } => {
            call(alloc, universe, function, grouping, args, parts)
        }
    }
}

/// The same of a call or an aggregation, whose parts are the operand, if it has one.
fn call(
    alloc: Global,
    universe: &Universe,
    function: Option<Function>,
    grouping: &Grouping,
    args: &Seq<Expr>,
    parts: Vec<TypedRow>,
) -> Result<TypedRow, Memory>
    requires listing { IsListing universe.now }
    requires parts { (env : Environment) × IsEnvironment universe.now env × (parts.items ≡ typed_operand universe.now env (option_map signature_of function) (trees args.now)) }
    ensures row { (env : Environment) → parts.items ≡ typed_operand universe.now env (option_map signature_of function) (trees args.now) → IfOk result (λ typed. typed.row ≡ Some (call_row universe.now (option_map signature_of function) grouping.now (trees args.now) (row_at universe.now env (trees args.now)))) }
    ensures form { IfOk result (λ typed. typed.form ≡ given_by (option_map signature_of function)) }
{
    let operand = at_most_one(parts);
    called(
        alloc,
        universe,
        function,
        grouping,
        args.as_slice(),
        operand,
    )
}
