//! Elements taken out of a list.
ghost use Rattle.std.specs.Prelude.{◌≡◌, reverse, IfOk};

use lf_base::{Memory, Seq};
use std::alloc::Global;

/// The elements of a list, the last one first. They aren't copied.
pub fn taken_out<T: Drop>(alloc: Global, mut items: Seq<T>) -> Result<Seq<T>, Memory>
    ensures { IfOk result (λ taken. taken ≡ reverse items) }
{
    let mut taken = Vec::with_capacity(alloc, items.len())?;
    while let Some(item) = items.pop() {
        taken.push(item)?;
    }
    Ok(Seq::from_vec(taken))
}
