//! Numbers, of which the least is taken out first.
ghost use Rattle.std.specs.Prelude.{◌≡◌, ◌⊎◌, ◌<◌, ℕ, [], ◌∷◌, IfNone, IfSome, OnOk};
ghost use Rattle.std.specs.List.{Contains};

use lf_base::Memory;
use std::alloc::Global;
use std::collections::BTreeSet;
use std::marker::Model;

/// Numbers, each once. The least is found in the logarithm of how many there are.
#[derive(Drop)]
pub(crate) struct NumberQueue {
    numbers: BTreeSet<usize>,
}

impl Model for NumberQueue {
    ghost use Rattle.std.specs.Prelude.{List, ℕ};

    ghost Value = { List ℕ };

    ghost view = { λ s. s.numbers.keys };
}

impl NumberQueue {
    /// No number.
    pub(crate) fn new(alloc: Global) -> NumberQueue
        ensures { result ≡ [] }
    {
        NumberQueue {
            numbers: BTreeSet::new(alloc),
        }
    }

    /// Adds a number, unless it is there.
    pub(crate) fn add(&mut self, number: usize) -> Result<(), Memory>
        ensures kept { OnOk result ((j : ℕ) → Contains self.old j → Contains self.new j) }
        ensures added { OnOk result (Contains self.new number) }
        ensures only { OnOk result ((j : ℕ) → Contains self.new j → (number ≡ j) ⊎ Contains self.old j) }
    {
        let _ = self.numbers.insert(number)?;
        Ok(())
    }

    /// Takes out the least number.
    pub(crate) fn take_least(&mut self) -> Option<usize>
        ensures none { IfNone result ((self.old ≡ []) × (self.new ≡ [])) }
        ensures some { IfSome result (λ k. self.old ≡ k ∷ self.new) }
        ensures least { IfSome result (λ k. (j : ℕ) → Contains self.new j → k < j) }
    {
        self.numbers.pop_first()
    }
}
