//! Offsets of a text that stands in its source as it is.
ghost use Rattle.std.specs.Prelude.{◌≡◌, ◌+◌, ◌≤◌, ℕ, length, slice_index, IfOk};
ghost use Rattle.std.specs.List.Sorted.{IsNonDecreasing};

use lf_base::{Memory, Seq};
use std::alloc::Global;

/// For each byte of a text of `len` bytes, and for its end, the offset in the source: entry k is k.
pub fn plain_offsets(alloc: Global, len: u32) -> Result<Seq<u32>, Memory>
    ensures count { IfOk result (λ from. length from ≡ len + 1) }
    ensures each { IfOk result (λ from. (k : ℕ) → k ≤ len → slice_index from k ≡ k) }
    ensures rises { IfOk result (λ from. IsNonDecreasing from) }
{
    let mut from = Seq::new(alloc);
    for offset in 0..len {
        from.push(offset)?;
    }
    from.push(len)?;
    Ok(from)
}
