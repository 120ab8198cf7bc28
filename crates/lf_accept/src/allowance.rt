//! How much the patterns of a file may count, so that reading them takes some two seconds at most.
ghost use Rattle.std.specs.Prelude.{◌≡◌, ◌<◌, ◌-◌, IfOk, OnErr, OnOk};
ghost use Rattle.std.specs.List.{sum_by};
ghost use Rattle.lf_accept.specs.Allowance.{TakesAllowance, count_of, most};
ghost use Rattle.lf_accept.specs.Patterns.{texts_at};

use lf_base::{Memory, Text};
use lf_pattern::plain_alternatives;
use lf_sizes::pattern_size;
use std::alloc::Global;

/// What the patterns of a file may count together.
const MOST: u64 = 2_000_000;

/// What a pattern counts beside its size and its bytes.
const OF_EACH: u64 = 32;

/// What is left of what the patterns of a file may count.
///
/// How long it takes to read a pattern `regex` tells only once it has read it. So what it counts goes by its text alone, and it is taken before the pattern is read. It is taken as
/// often as the pattern stands in the file, though it is read once.
#[derive(Drop)]
pub struct PatternAllowance {
    left: u64,
}

impl PatternAllowance {
    /// The allowance of a file.
    pub fn of_file() -> PatternAllowance
        ensures { result ≡ record { left = most } }
    {
        PatternAllowance { left: MOST }
    }

    /// How much was taken.
    pub fn taken(&self) -> u64
        ensures { result ≡ most - self.now.left }
    {
        MOST.saturating_sub(self.left)
    }

    /// Takes what patterns count. `Memory` where less is left.
    pub fn take_each(&mut self, alloc: Global, patterns: &[&str]) -> Result<(), Memory>
        ensures { OnOk result (TakesAllowance (sum_by count_of (texts_at patterns.now)) self.old self.new) }
    {
        for pattern in patterns {
            let count = count_of(alloc, pattern)?;
            self.take(count)?;
        }
        Ok(())
    }

    /// Takes so much. `Memory` where less is left; then nothing is taken.
    fn take(&mut self, count: u64) -> Result<(), Memory>
        ensures taken { OnOk result (TakesAllowance count self.old self.new) }
        ensures refused { OnErr result (self.old.left < count) }
        ensures kept { OnErr result (self.new ≡ self.old) }
    {
        match self.left.checked_sub(count) {
            Some(left) => {
                self.left = left;
                Ok(())
            }
            None => Err(Memory),
        }
    }
}

/// What a pattern counts: its bytes too, since what takes long in some patterns, such as loops in loops, has hardly any size. A plain one, which no `regex` is built of, counts
/// nothing.
fn count_of(alloc: Global, pattern: &str) -> Result<u64, Memory>
    ensures { IfOk result (λ count. count ≡ count_of pattern.now) }
{
    let text = Text::of(alloc, pattern)?;
    if plain_alternatives(alloc, &text)?.is_some() {
        return Ok(0);
    }
    let size = pattern_size(alloc, pattern)?;
    let bytes = pattern.len() as u64;
    Ok(size.saturating_add(OF_EACH).saturating_add(bytes))
}
