//! Bits of one word.
ghost use Rattle.std.specs.Prelude.{◌≡◌, ◌≢◌, ℕ, ◌+◌, ◌*◌, ◌<◌, ◌≤◌, ◌^◌, true, false};
ghost use Rattle.lf_classes.specs.views.Bits.{bit, changed};

/// How bits are changed by those of another list.
#[derive(Clone, Copy)]
pub enum Change {
    /// They become those of the other.
    Take,
    /// Those are cleared that the other lacks.
    Meet,
    /// Those are set that the other has.
    Join,
}

/// The word whose bits are set from a place on.
pub fn from_place(place: usize) -> u64
    requires { place ≤ 64 }
    ensures below { (i : ℕ) → i < place → bit result i ≡ false }
    ensures above { (i : ℕ) → place ≤ i → i < 64 → bit result i ≡ true }
{
    if place == 64 { 0 } else { u64::MAX << place }
}

/// The word whose bits are all set, or all clear.
pub fn whole(on: bool) -> u64
    ensures { (i : ℕ) → i < 64 → bit result i ≡ on }
{
    if on { u64::MAX } else { 0 }
}

/// A word changed by another.
pub fn changed(word: u64, other: u64, change: Change) -> u64
    ensures { (i : ℕ) → bit result i ≡ changed change (bit word i) (bit other i) }
{
    match change {
        Change::Take => other,
        Change::Meet => word & other,
        Change::Join => word | other,
    }
}

/// A word with one bit set or cleared.
pub fn with_bit(word: u64, place: usize, on: bool) -> u64
    requires { place < 64 }
    ensures same { bit result place ≡ on }
    ensures others { (i : ℕ) → i < 64 → i ≢ place → bit result i ≡ bit word i }
{
    if on {
        word | (1 << place)
    } else {
        word & !(1 << place)
    }
}

/// A word without the bits of a mask.
pub fn without(word: u64, mask: u64) -> u64
    ensures kept { (i : ℕ) → i < 64 → bit mask i ≡ false → bit result i ≡ bit word i }
    ensures cleared { (i : ℕ) → i < 64 → bit mask i ≡ true → bit result i ≡ false }
{
    word & !mask
}

/// A word that has the bits of another where a mask has bits.
pub fn picked(word: u64, other: u64, mask: u64) -> u64
    ensures inside { (i : ℕ) → i < 64 → bit mask i ≡ true → bit result i ≡ bit other i }
    ensures outside { (i : ℕ) → i < 64 → bit mask i ≡ false → bit result i ≡ bit word i }
{
    without(word, mask) | (other & mask)
}

/// Whether a word has a bit of a mask.
pub fn meets(word: u64, mask: u64) -> bool
    ensures some { result ≡ true → (i : ℕ) × (i < 64) × (bit word i ≡ true) × (bit mask i ≡ true) }
    ensures none { result ≡ false → (i : ℕ) → i < 64 → bit mask i ≡ true → bit word i ≡ false }
{
    word & mask != 0
}

/// The place in the word `number` of the bit `at` of all words: 0 where the bit stands in an earlier word, and 64 where in a later one.
fn place_in(number: usize, at: usize) -> usize
    requires { number < 2 ^ 32 }
    ensures within { result ≤ 64 }
    ensures before { (i : ℕ) → i < 64 → 64 * number + i < at → i < result }
    ensures after { (i : ℕ) → i < 64 → at ≤ 64 * number + i → result ≤ i }
{
    at.saturating_sub(64 * number).min(64)
}

/// The word whose bits are set where the word `number` has bits from `from` on and below `to`, counted over all words.
pub fn mask(number: usize, from: usize, to: usize) -> u64
    requires { number < 2 ^ 32 }
    ensures inside { (i : ℕ) → i < 64 → from ≤ 64 * number + i → 64 * number + i < to → bit result i ≡ true }
    ensures below { (i : ℕ) → i < 64 → 64 * number + i < from → bit result i ≡ false }
    ensures above { (i : ℕ) → i < 64 → to ≤ 64 * number + i → bit result i ≡ false }
{
    // Most words of a long range lie in it whole.
    let first = 64 * number;
    if from <= first && first + 64 <= to {
        return whole(true);
    }
    mask_at_edge(number, from, to)
}

/// The same, where the word may lie in the range in part.
fn mask_at_edge(number: usize, from: usize, to: usize) -> u64
    requires { number < 2 ^ 32 }
    ensures inside { (i : ℕ) → i < 64 → from ≤ 64 * number + i → 64 * number + i < to → bit result i ≡ true }
    ensures below { (i : ℕ) → i < 64 → 64 * number + i < from → bit result i ≡ false }
    ensures above { (i : ℕ) → i < 64 → to ≤ 64 * number + i → bit result i ≡ false }
{
    let low = from_place(place_in(number, from));
    let high = from_place(place_in(number, to));
    without(low, high)
}
