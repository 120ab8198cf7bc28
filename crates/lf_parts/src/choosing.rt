//! The values of some of the parts of an expression.
ghost use Rattle.std.specs.Prelude.{◌≡◌, ◌≤◌, ◌++◌, List, drop, length, map, reverse, take, IfOk};
ghost use Rattle.lf_ast.specs.Tree.{Tree};
ghost use Rattle.lf_ast.specs.views.Walks.{chosen};

use lf_ast::walk::Parts;
use lf_base::Memory;
use std::alloc::Global;

/// Of the values of all parts those of the chosen ones.
pub(crate) fn choose<T: Drop>(alloc: Global, parts: Parts, values: Vec<T>) -> Result<Vec<T>, Memory>
    ensures { (value : Tree → T) (all : List Tree) → values.items ≡ map value all → IfOk result (λ found. found.items ≡ map value (chosen parts all)) }
{
    match parts {
        Parts::All => Ok(values),
        Parts::From { place } => from(values, place),
        Parts::Only { place } => only(values, place),
        Parts::Nothing => Ok(Vec::new(alloc)),
    }
}

/// The values from a place on.
fn from<T: Drop>(mut values: Vec<T>, place: usize) -> Result<Vec<T>, Memory>
    ensures { IfOk result (λ found. found.items ≡ drop place values.items) }
{
    let place = place.min(values.len());
    let found = values.split_off(place)?;
    Ok(found)
}

/// The value at a place, if there is one.
fn only<T: Drop>(values: Vec<T>, place: usize) -> Result<Vec<T>, Memory>
    ensures { IfOk result (λ found. found.items ≡ take 1 (drop place values.items)) }
{
    let mut found = from(values, place)?;
    found.truncate(1);
    Ok(found)
}

/// Takes the last values off others, and turns them about.
pub(crate) fn take_last<T: Drop>(values: &mut Vec<T>, count: usize) -> Result<Vec<T>, Memory>
    requires { count ≤ length values.old.items }
    ensures taken { IfOk result (λ taken. values.old.items ≡ values.new.items ++ reverse taken.items) }
    ensures count { IfOk result (λ taken. length taken.items ≡ count) }
{
    let mut taken = values.split_off(values.len() - count)?;
    taken.reverse();
    Ok(taken)
}
