//! Which recorded rows an expression reads.
ghost use Rattle.std.specs.Prelude.{◌≡◌, ◌↔◌, ◌++◌, ◌∷◌, ℕ, [], cond, length, nat_lt, IfOk, OnOk};
ghost use Rattle.std.specs.List.{Contains, range_with_len};
ghost use Rattle.lf_ast.specs.Tree.{tree};
ghost use Rattle.lf_semantics.specs.Listing.{Listing, place};
ghost use Rattle.lf_semantics.specs.RowTable.{Environment, row_of};
ghost use Rattle.lf_laws.specs.Ascending.{AreAscending};
ghost use Rattle.lf_flow.specs.Reads.{AreEqualAt, ReadsNumber};
ghost use Rattle.lf_flow.specs.views.Reading.{AreSelected, numbers_selected};

use crate::Env;
use lf_ast::Expr;
use lf_base::{Memory, Seq, Text};
use lf_classes::TextSet;
use lf_deps::{in_ascending_order, rule_number, selectors};
use std::alloc::Global;

/// The numbers of the recorded names that an expression reads by a selector of its own, in ascending order. A selector without a name reads all of them, and nothing within
/// a scalar is looked at.
///
/// The row of the expression depends on the rows of these names alone. Want of memory where one of the numbers doesn't fit a `u32`.
pub fn reads(alloc: Global, env: &Env, expr: &Expr) -> Result<Seq<u32>, Memory>
    ensures numbers { IfOk result (λ numbers. (k : ℕ) → Contains numbers k ↔ ReadsNumber env.now (tree expr.now) k) }
    ensures ascending { IfOk result AreAscending }
    // In environments that are equal at these numbers the expression has equal rows.
    ensures same { IfOk result (λ numbers. (universe : Listing) (other : Environment) → AreEqualAt numbers env.now other → row_of universe env.now (tree expr.now) ≡ row_of universe other (tree expr.now)) }
{
    let found = selectors(alloc, expr)?;
    numbers_selected(alloc, env.recorded(), found.as_slice())
}

/// The numbers of the recorded names that selectors select, in ascending order. A selector without a name selects all of them. Want of memory where one of the numbers doesn't
/// fit a `u32`.
pub fn numbers_selected(
    alloc: Global,
    recorded: &TextSet,
    found: &[Option<Text>],
) -> Result<Seq<u32>, Memory>
    ensures { IfOk result (AreSelected recorded.now found.now) }
{
    let mut numbers = Seq::new(alloc);
    for selector in found {
        add_selected(recorded, selector, &mut numbers)?;
    }
    let sorted = in_ascending_order(alloc, numbers)?;
    Ok(sorted)
}

/// Adds the numbers of the names that a selector selects: that of its name, if it is recorded, and without a name those of all.
fn add_selected(
    recorded: &TextSet,
    selector: &Option<Text>,
    numbers: &mut Seq<u32>,
) -> Result<(), Memory>
    ensures { OnOk result (numbers.new ≡ numbers.old ++ numbers_selected recorded.now selector.now) }
{
    match selector {
        Some(name) => add_name(recorded, name.as_str(), numbers),
        None => add_below(recorded.len(), numbers),
    }
}

/// Adds the number of a name, if it is recorded.
fn add_name(recorded: &TextSet, name: &str, numbers: &mut Seq<u32>) -> Result<(), Memory>
    ensures { OnOk result (numbers.new ≡ numbers.old ++ cond (nat_lt (place recorded.now name.now) (length recorded.now)) (place recorded.now name.now ∷ []) []) }
{
    let place = recorded.place(name);
    if place < recorded.len() {
        let number = rule_number(place)?;
        numbers.push(number)
    } else {
        Ok(())
    }
}

/// Adds the numbers below a count.
fn add_below(count: usize, numbers: &mut Seq<u32>) -> Result<(), Memory>
    ensures { OnOk result (numbers.new ≡ numbers.old ++ range_with_len 0 count) }
{
    for k in 0..count {
        let number = rule_number(k)?;
        numbers.push(number)?;
    }
    Ok(())
}
