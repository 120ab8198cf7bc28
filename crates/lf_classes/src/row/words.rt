//! Rows in words of 64 bits.
ghost use Rattle.std.specs.Prelude.{◌≡◌, ◌<◌, ℕ, length, slice_index, IfOk};
ghost use Rattle.lf_classes.specs.RowWords.{in_order, row_of_words, row_word, word_count, words_for};

use super::{Row, all_live};
use crate::bits::Bits;
use crate::universe::Universe;
use lf_base::{Memory, Seq};
use std::alloc::Global;

impl Universe {
    /// How many words a row fills.
    pub fn words(&self) -> u32
        ensures { result ≡ word_count self.now }
    {
        let _labels = self.labels();
        (self.class_count() + 63) / 64
    }
}

impl Row {
    /// The word with the number `k` of the row. Its bit `b` says whether the row has the class with the number 64 k + b, counted from 0 over the labels and their classes
    /// in order; past the last class it is 0.
    pub fn word(&self, k: u32) -> u64
        requires { k < words_for (length (in_order self.now)) }
        ensures { result ≡ row_word self.now k }
    {
        if !self.live {
            return 0;
        }
        self.bits.word(k as usize)
    }

    /// The row of the words that `word` gives of it, and the empty row where some label has no class. The bits past the last class aren't looked at.
    pub fn from_words(alloc: Global, universe: &Universe, words: &Seq<u64>) -> Result<Row, Memory>
        requires { length words.now ≡ word_count universe.now }
        ensures { IfOk result (λ row. row ≡ row_of_words universe.now words.now) }
    {
        Row::of_words(alloc, universe, words.as_slice())
    }

    /// As `from_words`, of words that needn't be a `Seq`.
    pub fn of_words(alloc: Global, universe: &Universe, words: &[u64]) -> Result<Row, Memory>
        requires { length words.now ≡ word_count universe.now }
        ensures { IfOk result (λ row. row ≡ row_of_words universe.now words.now) }
    {
        let shape = universe.shape().share()?;
        let bits = Bits::from_words(alloc, words, shape.total())?;
        let live = all_live(&shape, &bits);
        Ok(Row { shape, bits, live })
    }

    /// Puts the words that `word` gives of the row into a list of as many.
    pub fn write_words(&self, into: &mut Vec<u64>)
        requires { length into.old.items ≡ words_for (length (in_order self.now)) }
        ensures len { length into.new.items ≡ length into.old.items }
        ensures words { (k : ℕ) → k < length into.old.items → slice_index into.new.items k ≡ row_word self.now k }
    {
        if self.live {
            self.bits.write_words(into);
        } else {
            clear(into);
        }
    }
}

/// Clears all words.
fn clear(words: &mut Vec<u64>)
    ensures len { length words.new.items ≡ length words.old.items }
    ensures clear { (k : ℕ) → k < length words.old.items → slice_index words.new.items k ≡ 0 }
{
    for k in 0..words.len() {
        words[k] = 0;
    }
}
