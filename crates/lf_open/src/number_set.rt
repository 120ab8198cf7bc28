//! Sets of numbers that are joined.
ghost use Rattle.std.specs.Prelude.{◌≡◌, [], IfOk, OnOk};
ghost use Rattle.lf_open.specs.views.Told.{has_any, joined, put_all, shares};

use lf_base::Memory;
use std::alloc::Global;
use std::collections::BTreeSet;
use std::marker::Model;

/// Numbers, each once.
#[derive(Drop)]
pub(crate) struct NumberSet {
    numbers: BTreeSet<usize>,
}

impl Model for NumberSet {
    ghost use Rattle.std.specs.Prelude.{List, ℕ};

    ghost Value = { List ℕ };

    ghost view = { λ s. s.numbers.keys };
}

impl NumberSet {
    /// No number.
    pub(crate) fn new(alloc: Global) -> NumberSet
        ensures { result ≡ [] }
    {
        NumberSet {
            numbers: BTreeSet::new(alloc),
        }
    }

    /// These numbers.
    pub(crate) fn of(alloc: Global, numbers: &[usize]) -> Result<NumberSet, Memory>
        ensures { IfOk result (λ made. made ≡ put_all numbers.now []) }
    {
        let mut made = BTreeSet::new(alloc);
        put_all(&mut made, numbers)?;
        Ok(NumberSet { numbers: made })
    }

    /// Whether a number is in both. The numbers of the set that has fewer are looked up in the other.
    pub(crate) fn shares(&self, other: &NumberSet) -> bool
        ensures { result ≡ shares self.now other.now }
    {
        if self.numbers.len() < other.numbers.len() {
            has_any(&other.numbers, &self.numbers)
        } else {
            has_any(&self.numbers, &other.numbers)
        }
    }

    /// The numbers of both. Those of the set that has fewer are put into the other, so that where sets are joined to one in the end, a number is put into another set no
    /// more often than the logarithm of their number.
    pub(crate) fn join(self, alloc: Global, other: NumberSet) -> Result<NumberSet, Memory>
        ensures { IfOk result (λ made. made ≡ joined self other) }
    {
        if self.numbers.len() < other.numbers.len() {
            other.with(alloc, self)
        } else {
            self.with(alloc, other)
        }
    }

    /// The set with the numbers of another.
    fn with(self, alloc: Global, few: NumberSet) -> Result<NumberSet, Memory>
        ensures { IfOk result (λ made. made ≡ put_all few self) }
    {
        let few: Vec<usize> = few.numbers.into_iter().collect(alloc)?;
        let mut many = self.numbers;
        put_all(&mut many, few.as_slice())?;
        Ok(NumberSet { numbers: many })
    }
}

/// Puts numbers among others.
fn put_all(many: &mut BTreeSet<usize>, few: &[usize]) -> Result<(), Memory>
    ensures { OnOk result (many.new.keys ≡ put_all few.now many.old.keys) }
{
    for number in few {
        let _ = many.insert(*number)?;
    }
    Ok(())
}

/// Whether one of the few is among the many.
fn has_any(many: &BTreeSet<usize>, few: &BTreeSet<usize>) -> bool
    ensures { result ≡ has_any many.now.keys few.now.keys }
{
    few.iter().any(|number| many.contains(number))
}
