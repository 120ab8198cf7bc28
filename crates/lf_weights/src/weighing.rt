//! The weights of what nodes reach.
ghost use Rattle.std.specs.Prelude.{◌≡◌, ◌≤◌, ◌<◌, ◌*◌, ◌-◌, ◌^◌, ℕ, List, length, min, take, drop, slice_index_or, IfOk};
ghost use Rattle.std.specs.Int.{bit_at};
ghost use Rattle.std.specs.List.{Contains, range_with_len, sum_by};
ghost use Rattle.lf_graph.specs.Paths.{IsGraph};
ghost use Rattle.lf_weights.specs.Weights.{AreReached, weight_reached};
ghost use Rattle.lf_weights.specs.views.Masks.{mask_at, weight_in};

use crate::masks::masks_of;
use lf_base::{Memory, Seq};
use lf_graph::Components;
use std::alloc::Global;
use std::collections::BTreeSet;

/// How many nodes a block has: as many as a word has bits.
const BLOCK: usize = 64;

/// For each node that has a weight those of the nodes that it reaches, itself among them, all together; or the greatest `u64`, where that is greater. The first nodes have weights.
///
/// What is reached is found for 64 nodes at a time, in one pass over the edges between components.
pub fn weight_reached(
    alloc: Global,
    edges: &Seq<Seq<usize>>,
    weights: &[u64],
) -> Result<u64, Memory>
    requires graph { IsGraph edges.now }
    requires weights { length weights.now ≤ length edges.now }
    ensures { (reached : ℕ → List ℕ) → AreReached edges.now (length weights.now) reached → IfOk result (λ total. total ≡ min (weight_reached weights.now reached) (2 ^ 64 - 1)) }
{
    let components = Components::of(alloc, edges)?;
    let nexts = lists_of_nexts(alloc, &components)?;
    let numbers = first_of(components.numbers(), weights.len());
    let mut total: u64 = 0;
    for block in 0..weights.len() / BLOCK + 1 {
        let part = block_of(weights, BLOCK * block);
        let masks = masks_of(alloc, &nexts, block_of(numbers, BLOCK * block))?;
        total = total.saturating_add(weigh_all(masks.as_slice(), numbers, part));
    }
    Ok(total)
}

/// The components next to each, as lists.
fn lists_of_nexts(alloc: Global, components: &Components) -> Result<Seq<Seq<usize>>, Memory>
    requires { length components.now.nexts ≡ length components.now.members }
    ensures { IfOk result (λ lists. lists ≡ components.now.nexts) }
{
    let mut lists = Seq::with_capacity(alloc, components.count())?;
    for number in 0..components.count() {
        lists.push(list_of(alloc, components.nexts(number))?)?;
    }
    Ok(lists)
}

/// The numbers of a set, in ascending order.
fn list_of(alloc: Global, set: &BTreeSet<usize>) -> Result<Seq<usize>, Memory>
    ensures { IfOk result (λ list. list ≡ set.now.keys) }
{
    let mut list = Seq::with_capacity(alloc, set.len())?;
    for number in set {
        list.push(*number)?;
    }
    Ok(list)
}

/// The first elements of a list.
fn first_of<T>(list: &[T], count: usize) -> &[T]
    requires { count ≤ length list.now }
    ensures { result.now ≡ take count list.now }
{
    &list[..count]
}

/// Those of the block that begins at a place.
fn block_of<T>(list: &[T], first: usize) -> &[T]
    requires { first ≤ length list.now }
    ensures { result.now ≡ take 64 (drop first list.now) }
{
    let rest = &list[first..];
    &rest[..rest.len().min(BLOCK)]
}

/// For each node, by its component, the weights of those nodes of a block that are set in its mask, all together.
fn weigh_all(masks: &[u64], numbers: &[usize], weights: &[u64]) -> u64
    requires numbers { (k : ℕ) → Contains numbers.now k → k < length masks.now }
    requires few { length weights.now ≤ 64 }
    ensures { result ≡ min (sum_by (λ k. weight_in (mask_at masks.now k) weights.now) numbers.now) (2 ^ 64 - 1) }
{
    let mut total: u64 = 0;
    for number in numbers {
        total = total.saturating_add(weigh(masks[*number], weights));
    }
    total
}

/// The weights of the nodes of a block that are set in a mask, all together.
fn weigh(mask: u64, weights: &[u64]) -> u64
    requires { length weights.now ≤ 64 }
    ensures { result ≡ min (weight_in mask weights.now) (2 ^ 64 - 1) }
{
    if mask == 0 {
        return 0;
    }
    let mut total: u64 = 0;
    for place in 0..weights.len() {
        total = total.saturating_add(weight_if_set(mask, place, weights[place]));
    }
    total
}

/// A weight where the bit at a place is set, and nothing where it isn't.
fn weight_if_set(mask: u64, place: usize, weight: u64) -> u64
    requires { place < 64 }
    ensures { result ≡ bit_at mask place * weight }
{
    if mask >> place & 1 == 1 { weight } else { 0 }
}
