//! A list of bits in words.
ghost use Rattle.std.specs.Prelude.{◌≡◌, ℕ, ◌+◌, ◌<◌, ◌≤◌, ◌^◌, length, replicate, slice_index_or, slice_set, false, true, ◌&&◌, IfOk};
ghost use Rattle.lf_classes.specs.views.Bits.{changed};

mod words;

use crate::range::{change_words, fill_words, has_all, has_any};
use crate::word::{Change, whole, with_bit};
use lf_base::Memory;
use std::alloc::Global;
use std::marker::Model;

/// Bits in words of 64, which contracts see as the list of them.
#[derive(Drop)]
pub struct Bits {
    words: Vec<u64>,
    len: usize,
}

impl Model for Bits {
    ghost use Rattle.std.specs.Prelude.{List, Bool};
    ghost use Rattle.lf_classes.specs.views.Bits.{bits_of, IsBits};

    ghost Value = { List Bool };

    ghost view = { λ b. bits_of b.words.items b.len };

    ghost invariant = { λ b. IsBits b.words.items b.len };
}

impl Bits {
    /// As many bits, all set or all clear.
    pub fn of(alloc: Global, len: usize, on: bool) -> Result<Bits, Memory>
        requires { len < 2 ^ 32 }
        ensures { IfOk result (λ bits. bits ≡ replicate len on) }
    {
        let words = vec![in alloc; whole(on); len / 64 + 1]?;
        Ok(Bits { words, len })
    }

    /// The same bits.
    pub fn copy(&self) -> Result<Bits, Memory>
        ensures { IfOk result (λ bits. bits ≡ self.now) }
    {
        let words = Vec::from_slice(*self.words.allocator(), self.words.as_slice())?;
        Ok(Bits {
            words,
            len: self.len,
        })
    }

    /// Whether the bit at `k` is set.
    pub fn get(&self, k: usize) -> bool
        requires { k < length self.now }
        ensures { result ≡ slice_index_or self.now k false }
    {
        (self.words[k / 64] >> (k % 64)) & 1 == 1
    }

    /// Sets the bit at `k`, or clears it.
    pub fn set(&mut self, k: usize, on: bool)
        requires { k < length self.old }
        ensures { self.new ≡ slice_set self.old k on }
    {
        let at = k / 64;
        let word = self.words[at];
        self.words[at] = with_bit(word, k % 64, on);
    }

    /// How many bits there are.
    pub fn len(&self) -> usize
        ensures { result ≡ length self.now }
    {
        self.len
    }

    /// Whether a bit from `from` on and below `to` is set.
    pub fn any(&self, from: usize, to: usize) -> bool
        requires { to ≤ length self.now }
        ensures some { result ≡ true → (k : ℕ) × (from ≤ k) × (k < to) × (slice_index_or self.now k false ≡ true) }
        ensures none { result ≡ false → (k : ℕ) → from ≤ k → k < to → slice_index_or self.now k false ≡ false }
    {
        has_any(self.words.as_slice(), from, to)
    }

    /// Sets the bits from `from` on and below `to`, or clears them.
    pub fn fill(&mut self, on: bool, from: usize, to: usize)
        requires { to ≤ length self.old }
        ensures len { length self.new ≡ length self.old }
        ensures inside { (k : ℕ) → from ≤ k → k < to → slice_index_or self.new k false ≡ on }
        ensures below { (k : ℕ) → k < from → slice_index_or self.new k false ≡ slice_index_or self.old k false }
        ensures above { (k : ℕ) → to ≤ k → slice_index_or self.new k false ≡ slice_index_or self.old k false }
    {
        fill_words(&mut self.words, on, from, to);
    }

    /// Changes the bits from `from` on and below `to` by those of the other.
    pub fn change(&mut self, other: &Bits, change: Change, from: usize, to: usize)
        requires same { length self.old ≡ length other.now }
        requires within { to ≤ length self.old }
        ensures len { length self.new ≡ length self.old }
        ensures inside { (k : ℕ) → from ≤ k → k < to → slice_index_or self.new k false ≡ changed change (slice_index_or self.old k false) (slice_index_or other.now k false) }
        ensures below { (k : ℕ) → k < from → slice_index_or self.new k false ≡ slice_index_or self.old k false }
        ensures above { (k : ℕ) → to ≤ k → slice_index_or self.new k false ≡ slice_index_or self.old k false }
    {
        change_words(&mut self.words, other.words.as_slice(), change, from, to);
    }

    /// Whether the other has each of the bits.
    pub fn lies_in(&self, other: &Bits) -> bool
        requires { length self.now ≡ length other.now }
        ensures all { result ≡ true → (k : ℕ) → slice_index_or self.now k false ≡ true → slice_index_or other.now k false ≡ true }
        ensures lacks { result ≡ false → (k : ℕ) × (k < length self.now) × (slice_index_or self.now k false ≡ true) × (slice_index_or other.now k false ≡ false) }
    {
        has_all(self.words.as_slice(), other.words.as_slice(), self.len)
    }
}

/// Makes the bits from `from` on those of a list.
pub fn put(bits: &mut Bits, from: usize, on: &[bool])
    requires within { from + length on.now ≤ length bits.old }
    requires small { length bits.old < 2 ^ 32 }
    ensures len { length bits.new ≡ length bits.old }
    ensures inside { (k : ℕ) → k < length on.now → slice_index_or bits.new (from + k) false ≡ slice_index_or on.now k false }
    ensures below { (k : ℕ) → k < from → slice_index_or bits.new k false ≡ slice_index_or bits.old k false }
    ensures above { (k : ℕ) → from + length on.now ≤ k → slice_index_or bits.new k false ≡ slice_index_or bits.old k false }
{
    for k in 0..on.len() {
        bits.set(from + k, on[k]);
    }
}

/// Clears the bits from `from` on that a list lacks.
pub fn narrow(bits: &mut Bits, from: usize, on: &[bool])
    requires within { from + length on.now ≤ length bits.old }
    requires small { length bits.old < 2 ^ 32 }
    ensures len { length bits.new ≡ length bits.old }
    ensures inside { (k : ℕ) → k < length on.now → slice_index_or bits.new (from + k) false ≡ (slice_index_or bits.old (from + k) false && slice_index_or on.now k false) }
    ensures below { (k : ℕ) → k < from → slice_index_or bits.new k false ≡ slice_index_or bits.old k false }
    ensures above { (k : ℕ) → from + length on.now ≤ k → slice_index_or bits.new k false ≡ slice_index_or bits.old k false }
{
    for k in 0..on.len() {
        let before = bits.get(from + k);
        bits.set(from + k, before && on[k]);
    }
}
