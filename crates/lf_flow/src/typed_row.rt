//! What is told of an expression at once: its row and its type.
ghost use Rattle.std.specs.Prelude.{◌≡◌, None, Some, IfOk, IfSome};
ghost use Rattle.std.specs.Option.{option_map};
ghost use Rattle.lf_ast.specs.Functions.{signature_of};
ghost use Rattle.lf_ast.specs.Tree.{trees};
ghost use Rattle.lf_ast.specs.Types.{is_scalar, joined, selected};
ghost use Rattle.lf_semantics.specs.ClassRows.{HasShape, bottom};
ghost use Rattle.lf_semantics.specs.Environments.{IsEnvironment};
ghost use Rattle.lf_semantics.specs.Listing.{IsListing};
ghost use Rattle.lf_semantics.specs.Parts.{given_by};
ghost use Rattle.lf_semantics.specs.RowTable.{binary_row, call_row, scraped_row, selector_row, sign_row};
ghost use Rattle.lf_flow.specs.views.Kept.{made_row, operand_row};

use crate::Env;
use crate::effects::{bare, effect, nameless};
use crate::operating::operate;
use crate::selecting::select;
use lf_ast::{
    Expr, ExprType, Function, Grouping, Matcher, Matching, Op, is_scalar, joined, selected,
};
use lf_base::{Memory, Text};
use lf_classes::{Row, Universe};
use lf_parts::Copied;
use std::alloc::Global;

/// The row of an expression, and the type that its form tells. With no row it is that of the one sample without labels, which is made only where it is looked at.
#[derive(Drop)]
pub struct TypedRow {
    pub row: Option<Row>,
    pub form: ExprType,
}

impl TypedRow {
    /// The row.
    pub fn into_row(self, alloc: Global, universe: &Universe) -> Result<Row, Memory>
        ensures { IfOk result (λ row. row ≡ made_row universe.now self.row) }
    {
        match self.row {
            Some(row) => Ok(row),
            None => bare(alloc, universe),
        }
    }
}

impl Copied for TypedRow {
    fn copied(&self, _alloc: Global) -> Result<TypedRow, Memory> {
        let row = match &self.row {
            Some(row) => Some(row.copy()?),
            None => None,
        };
        Ok(TypedRow {
            row,
            form: self.form,
        })
    }
}

/// A number.
pub fn number() -> TypedRow
    ensures row { result.row ≡ None }
    ensures form { result.form ≡ ExprType.Scalar }
{
    TypedRow {
        row: None,
        form: ExprType::Scalar,
    }
}

/// What gives no sample, and is of this type.
#[inline(never)]
pub fn empty(alloc: Global, universe: &Universe, form: ExprType) -> Result<TypedRow, Memory>
    ensures row { IfOk result (λ typed. typed.row ≡ Some (bottom universe.now)) }
    ensures form { IfOk result (λ typed. typed.form ≡ form) }
{
    let row = Row::empty(alloc, universe)?;
    Ok(TypedRow {
        row: Some(row),
        form,
    })
}

/// A selector. The row of all scraped series is taken where it is at hand.
pub fn selector(
    alloc: Global,
    universe: &Universe,
    env: &Env,
    scraped: Option<&Row>,
    name: &Option<Text>,
    matchers: &[Matcher],
    range: &Option<Text>,
) -> Result<TypedRow, Memory>
    requires env { IsEnvironment universe.now env.now }
    requires scraped { IfSome scraped (λ row. row.now ≡ scraped_row universe.now env.now) }
    ensures row { IfOk result (λ typed. typed.row ≡ Some (selector_row universe.now env.now name.now matchers.now)) }
    ensures form { IfOk result (λ typed. typed.form ≡ selected range.now) }
{
    let row = select(alloc, universe, env, scraped, name, matchers)?;
    Ok(TypedRow {
        row: Some(row),
        form: selected(range),
    })
}

/// An operand in parentheses.
pub fn whole(alloc: Global, universe: &Universe, operand: TypedRow) -> Result<TypedRow, Memory>
    ensures row { IfOk result (λ typed. typed.row ≡ Some (made_row universe.now operand.row)) }
    ensures form { IfOk result (λ typed. typed.form ≡ operand.form) }
{
    let form = operand.form;
    let row = operand.into_row(alloc, universe)?;
    Ok(TypedRow {
        row: Some(row),
        form,
    })
}

/// A subquery of this operand.
pub fn ranged(alloc: Global, universe: &Universe, operand: TypedRow) -> Result<TypedRow, Memory>
    ensures row { IfOk result (λ typed. typed.row ≡ Some (made_row universe.now operand.row)) }
    ensures form { IfOk result (λ typed. typed.form ≡ ExprType.Range) }
{
    let row = operand.into_row(alloc, universe)?;
    Ok(TypedRow {
        row: Some(row),
        form: ExprType::Range,
    })
}

/// A sign before this operand.
pub fn signed(
    alloc: Global,
    universe: &Universe,
    minus: bool,
    operand: TypedRow,
) -> Result<TypedRow, Memory>
    requires shape { HasShape universe.now (made_row universe.now operand.row) }
    ensures row { IfOk result (λ typed. typed.row ≡ Some (sign_row universe.now minus (made_row universe.now operand.row))) }
    ensures form { IfOk result (λ typed. typed.form ≡ operand.form) }
{
    let form = operand.form;
    let row = operand.into_row(alloc, universe)?;
    let row = if minus { nameless(universe, row) } else { row };
    Ok(TypedRow {
        row: Some(row),
        form,
    })
}

/// An operator between these two sides.
pub fn binary(
    alloc: Global,
    universe: &Universe,
    op: Op,
    matching: &Matching,
    left: TypedRow,
    right: TypedRow,
) -> Result<TypedRow, Memory>
    requires left { HasShape universe.now (made_row universe.now left.row) }
    requires right { HasShape universe.now (made_row universe.now right.row) }
    ensures row { IfOk result (λ typed. typed.row ≡ Some (binary_row universe.now op matching.now (is_scalar left.form) (is_scalar right.form) (made_row universe.now left.row) (made_row universe.now right.row))) }
    ensures form { IfOk result (λ typed. typed.form ≡ joined left.form right.form) }
{
    let form = joined(left.form, right.form);
    let row = operate(alloc, universe, op, matching, left, right)?;
    Ok(TypedRow {
        row: Some(row),
        form,
    })
}

/// A call of a function with this operand, if it has one. A call of no function gives no sample.
pub fn called(
    alloc: Global,
    universe: &Universe,
    function: Option<Function>,
    grouping: &Grouping,
    args: &[Expr],
    operand: Option<TypedRow>,
) -> Result<TypedRow, Memory>
    requires listing { IsListing universe.now }
    requires shape { HasShape universe.now (operand_row universe.now operand) }
    ensures row { IfOk result (λ typed. typed.row ≡ Some (call_row universe.now (option_map signature_of function) grouping.now (trees args.now) (λ place. operand_row universe.now operand))) }
    ensures form { IfOk result (λ typed. typed.form ≡ given_by (option_map signature_of function)) }
{
    let Some(function) = function else {
        return empty(alloc, universe, ExprType::Vector);
    };
    let operand = row_or_empty(alloc, universe, operand)?;
    let row = effect(alloc, universe, function.labels, grouping, args, operand)?;
    Ok(TypedRow {
        row: Some(row),
        form: function.gives,
    })
}

/// The row of an operand, and the empty row where there is none.
fn row_or_empty(
    alloc: Global,
    universe: &Universe,
    operand: Option<TypedRow>,
) -> Result<Row, Memory>
    ensures { IfOk result (λ row. row ≡ operand_row universe.now operand) }
{
    match operand {
        Some(typed) => typed.into_row(alloc, universe),
        None => Row::empty(alloc, universe),
    }
}
