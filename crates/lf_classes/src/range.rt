//! The bits of words from one place on and below another.
ghost use Rattle.std.specs.Prelude.{◌≡◌, ℕ, ◌+◌, ◌*◌, ◌/◌, ◌<◌, ◌≤◌, ◌^◌, length, true, false};
ghost use Rattle.lf_classes.specs.views.Bits.{bit_of, changed};

use crate::word::{Change, changed, mask, meets, picked, whole, without};

/// Whether a bit from `from` on and below `to` is set.
pub fn has_any(words: &[u64], from: usize, to: usize) -> bool
    requires within { to ≤ 64 * length words.now }
    requires small { to < 2 ^ 32 }
    ensures some { result ≡ true → (k : ℕ) × (from ≤ k) × (k < to) × (bit_of words.now k ≡ true) }
    ensures none { result ≡ false → (k : ℕ) → from ≤ k → k < to → bit_of words.now k ≡ false }
{
    let first = first_whole(from);
    let last = to / 64;
    if first < last {
        has_any_in_part(words, from, 64 * first)
            || has_any_in_whole(words, first, last)
            || has_any_in_part(words, 64 * last, to)
    } else {
        has_any_in_part(words, from, to)
    }
}

/// The same, where words may lie in the range in part.
fn has_any_in_part(words: &[u64], from: usize, to: usize) -> bool
    requires within { to ≤ 64 * length words.now }
    requires small { to < 2 ^ 32 }
    ensures some { result ≡ true → (k : ℕ) × (from ≤ k) × (k < to) × (bit_of words.now k ≡ true) }
    ensures none { result ≡ false → (k : ℕ) → from ≤ k → k < to → bit_of words.now k ≡ false }
{
    for number in from / 64..(to + 63) / 64 {
        if meets(words[number], mask(number, from, to)) {
            return true;
        }
    }
    false
}

/// Whether a bit of the words from `first` on and below `last` is set.
fn has_any_in_whole(words: &[u64], first: usize, last: usize) -> bool
    requires within { last ≤ length words.now }
    requires small { last < 2 ^ 32 }
    ensures some { result ≡ true → (k : ℕ) × (64 * first ≤ k) × (k < 64 * last) × (bit_of words.now k ≡ true) }
    ensures none { result ≡ false → (k : ℕ) → 64 * first ≤ k → k < 64 * last → bit_of words.now k ≡ false }
{
    let all = whole(true);
    for number in first..last {
        if meets(words[number], all) {
            return true;
        }
    }
    false
}

/// Sets the bits from `from` on and below `to`, or clears them.
pub fn fill_words(words: &mut Vec<u64>, on: bool, from: usize, to: usize)
    requires within { to ≤ 64 * length words.old.items }
    requires small { to < 2 ^ 32 }
    ensures len { length words.new.items ≡ length words.old.items }
    ensures inside { (k : ℕ) → from ≤ k → k < to → bit_of words.new.items k ≡ on }
    ensures below { (k : ℕ) → k < from → bit_of words.new.items k ≡ bit_of words.old.items k }
    ensures above { (k : ℕ) → to ≤ k → bit_of words.new.items k ≡ bit_of words.old.items k }
{
    let first = first_whole(from);
    let last = to / 64;
    if first < last {
        fill_part(words, on, from, 64 * first);
        fill_whole(words.as_mut_slice(), on, first, last);
        fill_part(words, on, 64 * last, to);
    } else {
        fill_part(words, on, from, to);
    }
}

/// The same, where words may lie in the range in part.
fn fill_part(words: &mut Vec<u64>, on: bool, from: usize, to: usize)
    requires within { to ≤ 64 * length words.old.items }
    requires small { to < 2 ^ 32 }
    ensures len { length words.new.items ≡ length words.old.items }
    ensures inside { (k : ℕ) → from ≤ k → k < to → bit_of words.new.items k ≡ on }
    ensures below { (k : ℕ) → k < from → bit_of words.new.items k ≡ bit_of words.old.items k }
    ensures above { (k : ℕ) → to ≤ k → bit_of words.new.items k ≡ bit_of words.old.items k }
{
    for number in from / 64..(to + 63) / 64 {
        words[number] = picked(words[number], whole(on), mask(number, from, to));
    }
}

/// Sets the bits of the words from `first` on and below `last`, or clears them.
fn fill_whole(words: &mut [u64], on: bool, first: usize, last: usize)
    requires within { last ≤ length words.old }
    requires small { last < 2 ^ 32 }
    ensures len { length words.new ≡ length words.old }
    ensures inside { (k : ℕ) → 64 * first ≤ k → k < 64 * last → bit_of words.new k ≡ on }
    ensures below { (k : ℕ) → k < 64 * first → bit_of words.new k ≡ bit_of words.old k }
    ensures above { (k : ℕ) → 64 * last ≤ k → bit_of words.new k ≡ bit_of words.old k }
{
    let all = whole(true);
    for number in first..last {
        words[number] = picked(words[number], whole(on), all);
    }
}

/// Changes the bits from `from` on and below `to` by the others.
pub fn change_words(words: &mut Vec<u64>, others: &[u64], change: Change, from: usize, to: usize)
    requires same { length words.old.items ≡ length others.now }
    requires within { to ≤ 64 * length others.now }
    requires small { to < 2 ^ 32 }
    ensures len { length words.new.items ≡ length words.old.items }
    ensures inside { (k : ℕ) → from ≤ k → k < to → bit_of words.new.items k ≡ changed change (bit_of words.old.items k) (bit_of others.now k) }
    ensures below { (k : ℕ) → k < from → bit_of words.new.items k ≡ bit_of words.old.items k }
    ensures above { (k : ℕ) → to ≤ k → bit_of words.new.items k ≡ bit_of words.old.items k }
{
    let first = first_whole(from);
    let last = to / 64;
    if first < last {
        change_part(words, others, change, from, 64 * first);
        change_whole(words.as_mut_slice(), others, change, first, last);
        change_part(words, others, change, 64 * last, to);
    } else {
        change_part(words, others, change, from, to);
    }
}

/// The same, where words may lie in the range in part.
fn change_part(words: &mut Vec<u64>, others: &[u64], change: Change, from: usize, to: usize)
    requires same { length words.old.items ≡ length others.now }
    requires within { to ≤ 64 * length others.now }
    requires small { to < 2 ^ 32 }
    ensures len { length words.new.items ≡ length words.old.items }
    ensures inside { (k : ℕ) → from ≤ k → k < to → bit_of words.new.items k ≡ changed change (bit_of words.old.items k) (bit_of others.now k) }
    ensures below { (k : ℕ) → k < from → bit_of words.new.items k ≡ bit_of words.old.items k }
    ensures above { (k : ℕ) → to ≤ k → bit_of words.new.items k ≡ bit_of words.old.items k }
{
    for number in from / 64..(to + 63) / 64 {
        let word = words[number];
        let other = changed(word, others[number], change);
        words[number] = picked(word, other, mask(number, from, to));
    }
}

/// Changes the bits of the words from `first` on and below `last` by the others.
fn change_whole(words: &mut [u64], others: &[u64], change: Change, first: usize, last: usize)
    requires same { length words.old ≡ length others.now }
    requires within { last ≤ length others.now }
    requires small { last < 2 ^ 32 }
    ensures len { length words.new ≡ length words.old }
    ensures inside { (k : ℕ) → 64 * first ≤ k → k < 64 * last → bit_of words.new k ≡ changed change (bit_of words.old k) (bit_of others.now k) }
    ensures below { (k : ℕ) → k < 64 * first → bit_of words.new k ≡ bit_of words.old k }
    ensures above { (k : ℕ) → 64 * last ≤ k → bit_of words.new k ≡ bit_of words.old k }
{
    let all = whole(true);
    for number in first..last {
        let word = words[number];
        let other = changed(word, others[number], change);
        words[number] = picked(word, other, all);
    }
}

/// Whether the others have each bit below `to`.
pub fn has_all(words: &[u64], others: &[u64], to: usize) -> bool
    requires same { length words.now ≡ length others.now }
    requires within { to ≤ 64 * length words.now }
    requires small { to < 2 ^ 32 }
    ensures all { result ≡ true → (k : ℕ) → k < to → bit_of words.now k ≡ true → bit_of others.now k ≡ true }
    ensures lacks { result ≡ false → (k : ℕ) × (k < to) × (bit_of words.now k ≡ true) × (bit_of others.now k ≡ false) }
{
    let last = to / 64;
    has_all_in_whole(words, others, last) && has_all_in_last(words, others, to)
}

/// Whether the others have each bit of the first words, of which there are so many.
fn has_all_in_whole(words: &[u64], others: &[u64], count: usize) -> bool
    requires same { length words.now ≡ length others.now }
    requires within { count ≤ length words.now }
    requires small { count < 2 ^ 32 }
    ensures all { result ≡ true → (k : ℕ) → k < 64 * count → bit_of words.now k ≡ true → bit_of others.now k ≡ true }
    ensures lacks { result ≡ false → (k : ℕ) × (k < 64 * count) × (bit_of words.now k ≡ true) × (bit_of others.now k ≡ false) }
{
    let all = whole(true);
    for number in 0..count {
        if meets(without(words[number], others[number]), all) {
            return false;
        }
    }
    true
}

/// Whether the others have each bit below `to`, as they have those of the words that the range has whole.
fn has_all_in_last(words: &[u64], others: &[u64], to: usize) -> bool
    requires same { length words.now ≡ length others.now }
    requires within { to ≤ 64 * length words.now }
    requires small { to < 2 ^ 32 }
    requires before { (k : ℕ) → k < 64 * (to / 64) → bit_of words.now k ≡ true → bit_of others.now k ≡ true }
    ensures all { result ≡ true → (k : ℕ) → k < to → bit_of words.now k ≡ true → bit_of others.now k ≡ true }
    ensures lacks { result ≡ false → (k : ℕ) × (k < to) × (bit_of words.now k ≡ true) × (bit_of others.now k ≡ false) }
{
    for number in to / 64..(to + 63) / 64 {
        if meets(without(words[number], others[number]), mask(number, 0, to)) {
            return false;
        }
    }
    true
}

/// The first word that lies whole behind the bits below `from`.
fn first_whole(from: usize) -> usize
    ensures after { from ≤ 64 * result }
    ensures near { 64 * result < from + 64 }
{
    from.div_ceil(64)
}
