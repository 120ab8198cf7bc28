//! Numbers in ascending order.
ghost use Rattle.std.specs.Prelude.{◌≡◌, ◌↔◌, ◌<◌, ℕ, [], true, IfOk};
ghost use Rattle.std.specs.List.{Contains};
ghost use Rattle.lf_laws.specs.Ascending.{AreAscending};
ghost use Rattle.lf_graph.specs.views.Listing.{Adds};

use lf_base::{Memory, Seq};
use std::alloc::Global;
use std::collections::BTreeSet;

/// The same numbers, each once, in ascending order. Those that descend are turned round, and no set is made of them.
pub(crate) fn in_order(alloc: Global, mut numbers: Vec<usize>) -> Result<Seq<usize>, Memory>
    ensures ascending { IfOk result AreAscending }
    ensures same { IfOk result (λ found. (k : ℕ) → Contains found k ↔ Contains numbers.items k) }
{
    numbers.reverse();
    if are_ascending(numbers.as_slice()) {
        return Ok(Seq::from_vec(numbers));
    }
    let set = set_of(alloc, numbers.as_slice())?;
    let found: Vec<usize> = set.into_iter().collect(alloc)?;
    Ok(Seq::from_vec(found))
}

/// Whether each number is greater than the one before it.
fn are_ascending(numbers: &[usize]) -> bool
    ensures { result ≡ true → AreAscending numbers.now }
{
    for k in 1..numbers.len() {
        if numbers[k] <= numbers[k - 1] {
            return false;
        }
    }
    true
}

/// The set of numbers.
fn set_of(alloc: Global, numbers: &[usize]) -> Result<BTreeSet<usize>, Memory>
    ensures { IfOk result (λ set. Adds numbers.now [] set.keys) }
{
    let mut set = BTreeSet::new(alloc);
    for number in numbers {
        let _ = set.insert(*number)?;
    }
    Ok(set)
}
