//! Which nodes of a block are reached from each component.
ghost use Rattle.std.specs.Prelude.{◌≡◌, ◌≤◌, ◌<◌, ℕ, [], length, slice_index_or, slice_set, IfOk};
ghost use Rattle.std.specs.List.{Contains};
ghost use Rattle.lf_weights.specs.views.Masks.{AreMasks, IsOwn, LeadsInto, joined, mask_at};

use lf_base::{Memory, Seq};
use std::alloc::Global;

/// For each component a mask, of which a bit stands for each node of a block: it is set where edges lead from the component to that of the node. The components are given by those
/// next to each, and the nodes of the block by the numbers of their components.
pub(crate) fn masks_of(
    alloc: Global,
    nexts: &Seq<Seq<usize>>,
    numbers: &[usize],
) -> Result<Vec<u64>, Memory>
    requires few { length numbers.now ≤ 64 }
    requires numbers { (j : ℕ) → j < length numbers.now → slice_index_or numbers.now j 0 < length nexts.now }
    requires down { (k l : ℕ) → Contains (slice_index_or nexts.now k []) l → l ≤ k }
    ensures { IfOk result (λ masks. AreMasks (length nexts.now) (LeadsInto nexts.now numbers.now) masks.items) }
{
    let mut masks = own_masks(alloc, numbers, nexts.len())?;
    for number in 0..nexts.len() {
        join(&mut masks, number, nexts.get(number).as_slice());
    }
    Ok(masks)
}

/// For each component the mask of the nodes that are of it.
fn own_masks(alloc: Global, numbers: &[usize], count: usize) -> Result<Vec<u64>, Memory>
    requires few { length numbers.now ≤ 64 }
    requires numbers { (j : ℕ) → j < length numbers.now → slice_index_or numbers.now j 0 < count }
    ensures { IfOk result (λ masks. AreMasks count (IsOwn numbers.now) masks.items) }
{
    let mut masks = vec![in alloc; 0; count]?;
    for (place, number) in numbers.iter().enumerate() {
        masks[*number] = masks[*number] | (1 << place);
    }
    Ok(masks)
}

/// Joins the masks of other components to that of one.
fn join(masks: &mut Vec<u64>, number: usize, others: &[usize])
    requires number { number < length masks.old.items }
    requires others { (l : ℕ) → Contains others.now l → l < length masks.old.items }
    ensures { masks.new.items ≡ slice_set masks.old.items number (joined masks.old.items number others.now) }
{
    let mut mask = masks[number];
    for other in others {
        mask = mask | masks[*other];
    }
    masks[number] = mask;
}
