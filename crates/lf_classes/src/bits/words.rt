//! The words of bits.
ghost use Rattle.std.specs.Prelude.{◌≡◌, ◌+◌, ◌*◌, ◌/◌, ◌<◌, ◌≤◌, ◌^◌, length, take, drop, IfOk, ℕ, slice_index};
ghost use Rattle.lf_classes.specs.RowWords.{number_of, words_for};
ghost use Rattle.lf_classes.specs.views.Bits.{bits_of};

use super::Bits;
use crate::word::{mask, picked};
use lf_base::Memory;
use std::alloc::Global;

impl Bits {
    /// The bits of words. Those behind the last bit aren't looked at.
    pub fn from_words(alloc: Global, words: &[u64], len: usize) -> Result<Bits, Memory>
        requires small { len < 2 ^ 32 }
        requires filled { length words.now ≡ words_for len }
        ensures { IfOk result (λ bits. bits ≡ bits_of words.now len) }
    {
        let words = with_room(alloc, words, len / 64 + 1)?;
        Ok(Bits { words, len })
    }

    /// The word with the number `number`. Behind the last bit it has no bits.
    pub fn word(&self, number: usize) -> u64
        requires { 64 * number < length self.now }
        ensures { result ≡ number_of (take 64 (drop (64 * number) self.now)) }
    {
        picked(0, self.words[number], mask(number, 0, self.len))
    }

    /// Puts the words into a list of as many. Behind the last bit they have no bits.
    pub fn write_words(&self, into: &mut Vec<u64>)
        requires { length into.old.items ≡ words_for (length self.now) }
        ensures len { length into.new.items ≡ length into.old.items }
        ensures words { (k : ℕ) → k < length into.old.items → slice_index into.new.items k ≡ number_of (take 64 (drop (64 * k) self.now)) }
    {
        let count = into.len();
        into.copy_from_slice(&self.words.as_slice()[..count]);
        let whole = self.len / 64;
        if whole < count {
            into[whole] = self.word(whole);
        }
    }
}

/// The words, and behind them clear ones until there are as many.
fn with_room(alloc: Global, words: &[u64], count: usize) -> Result<Vec<u64>, Memory>
    requires { length words.now ≤ count }
    ensures count { IfOk result (λ all. length all.items ≡ count) }
    ensures words { IfOk result (λ all. (k : ℕ) → k < length words.now → slice_index all.items k ≡ slice_index words.now k) }
{
    let mut all = Vec::from_slice(alloc, words)?;
    for _ in words.len()..count {
        all.push(0)?;
    }
    Ok(all)
}
