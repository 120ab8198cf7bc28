//! Counts.
ghost use Rattle.std.specs.Prelude.{◌≡◌, ◌+◌, IfOk};

use lf_base::Memory;

/// One more. A count that is too large for the memory is answered like want of it.
pub fn one_more(count: usize) -> Result<usize, Memory>
    ensures { IfOk result (λ more. more ≡ count + 1) }
{
    if count == usize::MAX {
        return Err(Memory);
    }
    Ok(count + 1)
}
