//! Sums of the words of rows.
ghost use Rattle.std.specs.Prelude.{◌≡◌, ℕ, ◌+◌, ◌<◌, List, sum, IfOk, IfSome};
ghost use Rattle.lf_rounds.specs.Sums.{sum_of_rows};
ghost use Rattle.lf_rounds.specs.views.Standings.{AreRowSums};

use lf_base::{Memory, Seq};
use std::alloc::Global;

/// A sum with words added to it. Want of memory where it doesn't fit.
pub(crate) fn with_words(before: u128, words: &[u64]) -> Result<u128, Memory>
    ensures { IfOk result (λ all. all ≡ before + sum words.now) }
{
    match before.checked_add(sum_of(words)) {
        Some(all) => Ok(all),
        None => Err(Memory),
    }
}

/// The sum of words, which always fits: there are fewer words than one of them has values.
fn sum_of(words: &[u64]) -> u128
    ensures { result ≡ sum words.now }
{
    let mut all: u128 = 0;
    for word in words {
        all += u128::from(*word);
    }
    all
}

/// A sum with a word added to it. Want of memory where it doesn't fit.
pub(crate) fn with_word(before: u128, word: u64) -> Result<u128, Memory>
    ensures { IfOk result (λ all. all ≡ before + word) }
{
    match before.checked_add(u128::from(word)) {
        Some(all) => Ok(all),
        None => Err(Memory),
    }
}

/// The sums of the words of all rows, which have so many words each.
pub(crate) fn row_sums(alloc: Global, words: &[u64], width: u32) -> Result<Seq<u128>, Memory>
    requires { 0 < width }
    ensures { IfOk result (AreRowSums width words.now) }
{
    let wide = width as usize;
    let mut sums = Seq::new(alloc);
    for k in 0..words.len() / wide {
        let at = k * wide;
        sums.push(sum_of(&words[at..at + wide]))?;
    }
    Ok(sums)
}

/// The sum of the rows with these numbers, by the sums of all rows, and none where it doesn't fit.
pub(crate) fn sum_at(sums: &[u128], numbers: &[u32]) -> Option<u128>
    ensures { (wide : ℕ) (words : List ℕ) → AreRowSums wide words sums.now → IfSome result (λ all. all ≡ sum_of_rows wide words numbers.now) }
{
    let mut all: u128 = 0;
    for number in numbers {
        let index = *number as usize;
        if sums.len() <= index {
            return None;
        }
        all = all.checked_add(sums[index])?;
    }
    Some(all)
}
