//! Numbers of rules and names, each once, in ascending order.
ghost use Rattle.std.specs.Prelude.{◌≡◌, ◌↔◌, ◌<◌, ◌∷◌, ℕ, [], true, IfOk, OnErr, OnOk};
ghost use Rattle.std.specs.List.{Contains};
ghost use Rattle.lf_laws.specs.Ascending.{AreAscending};
ghost use Rattle.lf_graph.specs.views.Listing.{Adds};

use lf_base::{Memory, Seq};
use std::alloc::Global;
use std::collections::BTreeSet;

/// Adds a number. Want of memory where it doesn't fit a `u32`.
pub fn add_number(found: &mut BTreeSet<u32>, number: usize) -> Result<(), Memory>
    ensures ok { OnOk result (Adds (number ∷ []) found.old.keys found.new.keys) }
    ensures err { OnErr result (found.new.keys ≡ found.old.keys) }
{
    let Ok(number) = u32::try_from(number) else {
        return Err(Memory);
    };
    let _ = found.insert(number)?;
    Ok(())
}

/// Numbers in ascending order.
pub fn in_order(alloc: Global, numbers: BTreeSet<u32>) -> Result<Seq<u32>, Memory>
    ensures members { IfOk result (λ found. found ≡ numbers.keys) }
    ensures ascending { IfOk result AreAscending }
{
    let items: Vec<u32> = numbers.into_iter().collect(alloc)?;
    Ok(Seq::from_vec(items))
}

/// The same numbers, each once, in ascending order.
pub fn in_ascending_order(alloc: Global, numbers: Seq<u32>) -> Result<Seq<u32>, Memory>
    ensures ascending { IfOk result AreAscending }
    ensures same { IfOk result (λ sorted. (k : ℕ) → Contains sorted k ↔ Contains numbers k) }
{
    // So few names are read by most rules that no set is worth while.
    if are_ascending(numbers.as_slice()) {
        return Ok(numbers);
    }
    let set = set_of(alloc, numbers.as_slice())?;
    let sorted = in_order(alloc, set)?;
    Ok(sorted)
}

/// Whether each number is greater than the one before it.
fn are_ascending(numbers: &[u32]) -> bool
    ensures { result ≡ true → AreAscending numbers.now }
{
    for k in 1..numbers.len() {
        if numbers[k] <= numbers[k - 1] {
            return false;
        }
    }
    true
}

/// The set of numbers.
fn set_of(alloc: Global, numbers: &[u32]) -> Result<BTreeSet<u32>, Memory>
    ensures { IfOk result (λ set. Adds numbers.now [] set.keys) }
{
    let mut set = BTreeSet::new(alloc);
    for number in numbers {
        add_number(&mut set, *number as usize)?;
    }
    Ok(set)
}
