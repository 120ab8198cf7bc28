//! The words of a table between two rounds.
ghost use Rattle.std.specs.Prelude.{◌≡◌, ◌*◌, ◌<◌, ◌∷◌, drop, length, replicate, sum, IfOk};
ghost use Rattle.std.specs.Slots.{IsFull, slots_items, slots_len};
ghost use Rattle.lf_classes.specs.RowWords.{word_count};
ghost use Rattle.lf_rounds.specs.Words.{AreWords};

use crate::beginning::count_words;
use crate::sums::{with_word, with_words};
use atomic_table::Closed;
use lf_base::Memory;
use lf_classes::Universe;
use std::alloc::Global;
use std::marker::Model;

/// The row words as a table has them, behind a claim word of 0, and their sum: contracts see the row words alone. They lie so from one table to the next, since there may be
/// many of them, and each copy takes time.
#[derive(Drop)]
pub struct TableWords {
    all: Vec<u64>,
    total: u128,
}

impl Model for TableWords {
    ghost use Rattle.std.specs.Prelude.{List, ℕ, ◌≡◌, ◌∷◌, drop, sum};
    ghost use Rattle.std.specs.Coded.{coded_ℕ, coded_list};

    ghost Value = { List ℕ };

    ghost coded = { coded_list coded_ℕ };

    ghost view = { λ it. drop 1 it.all.items };

    ghost invariant = { λ it. (it.all.items ≡ 0 ∷ drop 1 it.all.items) × (it.total ≡ sum (drop 1 it.all.items)) };
}

impl TableWords {
    /// Words without a bit for so many names. Want of memory where they are more than can be counted.
    pub(crate) fn clear(
        alloc: Global,
        universe: &Universe,
        names: usize,
    ) -> Result<TableWords, Memory>
        ensures { IfOk result (λ words. words ≡ replicate (names * word_count universe.now) 0) }
    {
        let count = count_words(universe, names)?;
        let Some(places) = count.checked_add(1) else {
            return Err(Memory);
        };
        let all = vec![in alloc; 0; places]?;
        Ok(TableWords { all, total: 0 })
    }

    /// A copy of these row words.
    pub(crate) fn of(alloc: Global, words: &[u64]) -> Result<TableWords, Memory>
        ensures { IfOk result (λ it. it ≡ words.now) }
    {
        let total = with_words(0, words)?;
        let mut all = Vec::with_capacity(alloc, words.len() + 1)?;
        all.push(0)?;
        all.extend_from_slice(words)?;
        Ok(TableWords { all, total })
    }

    /// The row words of a table that was closed.
    pub(crate) fn of_closed(
        alloc: Global,
        closed: &Closed<(), Global>,
    ) -> Result<TableWords, Memory>
        requires { IsFull closed.now.words × (0 < slots_len closed.now.words) }
        ensures words { IfOk result (λ words. words ≡ drop 1 (slots_items closed.now.words)) }
        ensures fit { IfOk result AreWords }
    {
        let count = closed.words.len() - 1;
        let mut all = Vec::with_capacity(alloc, count + 1)?;
        all.push_reserved(0);
        let mut total: u128 = 0;
        for k in 0..count {
            let word = closed.word(k + 1);
            all.push_reserved(word);
            total = with_word(total, word)?;
        }
        Ok(TableWords { all, total })
    }

    /// The row words.
    pub(crate) fn row_words(&self) -> &[u64]
        ensures { result.now ≡ self.now }
    {
        &self.all[1..]
    }

    /// All words with which a table begins.
    pub(crate) fn for_table(&self) -> &[u64]
        ensures { result.now ≡ 0 ∷ self.now }
    {
        self.all.as_slice()
    }

    /// How many row words there are.
    pub(crate) fn len(&self) -> usize
        ensures { result ≡ length self.now }
    {
        self.all.len() - 1
    }

    /// The sum of the row words.
    pub(crate) fn total(&self) -> u128
        ensures { result ≡ sum self.now }
    {
        self.total
    }
}
