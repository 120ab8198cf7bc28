//! Which rules are due in the next round.
ghost use Rattle.std.specs.Prelude.{◌≡◌, ◌⊎◌, ℕ, ◌<◌, ◌++◌, [], ◌∷◌, cond, List, length, Some, false, true, IfOk, OnOk};
ghost use Rattle.std.specs.List.{Contains};
ghost use Rattle.lf_rounds.specs.Sums.{sum_of_rows};
ghost use Rattle.lf_rounds.specs.views.Standings.{AreRowSums, IsCurrent};

use crate::known::RecordedReads;
use crate::sums::{row_sums, sum_at};
use lf_base::choice::either;
use lf_base::{Memory, Seq};
use std::alloc::Global;

/// Of the numbers of rules those that the next round takes, in the same order: each that is due, and each that reads the row of a name that a rule taken before it records, since
/// this row may grow in the round. A rule isn't due where the words of the rows that it reads have the sum that they had when it was computed last: since they only grew, they
/// are the same.
pub(crate) fn due_of(
    alloc: Global,
    known: &RecordedReads,
    all: &Seq<u32>,
    last: &[Option<u128>],
    words: &[u64],
    width: u32,
) -> Result<Seq<u32>, Memory>
    requires width { 0 < width }
    requires within { (k : ℕ) → Contains all.now k → (k < length known.now.names) × (k < length known.now.reads) × (k < length last.now) }
    ensures some { IfOk result (λ due. (k : ℕ) → Contains due k → Contains all.now k) }
    ensures others { IfOk result (λ due. (k : ℕ) → Contains all.now k → Contains due k ⊎ IsCurrent width words.now known.now.reads last.now k) }
{
    let sums = row_sums(alloc, words, width)?;
    due_by(alloc, known, all, last, sums.as_slice())
}

/// The same, by the sums of all rows.
fn due_by(
    alloc: Global,
    known: &RecordedReads,
    all: &Seq<u32>,
    last: &[Option<u128>],
    sums: &[u128],
) -> Result<Seq<u32>, Memory>
    requires within { (k : ℕ) → Contains all.now k → (k < length known.now.names) × (k < length known.now.reads) × (k < length last.now) }
    ensures some { IfOk result (λ due. (k : ℕ) → Contains due k → Contains all.now k) }
    ensures others { (wide : ℕ) (words : List ℕ) → AreRowSums wide words sums.now → IfOk result (λ due. (k : ℕ) → Contains all.now k → Contains due k ⊎ IsCurrent wide words known.now.reads last.now k) }
{
    let mut due = Seq::new(alloc);
    // No more names are recorded than there are rules.
    let mut marks = vec![in alloc; false; known.names.len()]?;
    for number in all.as_slice() {
        let k = *number as usize;
        let numbers = known.reads.get(k);
        let changed = is_due(numbers.as_slice(), last[k], sums);
        let test = either(changed, is_marked(numbers.as_slice(), marks.as_slice()));
        add_due(&mut due, *number, test)?;
        mark_if(test, *known.names.get(k) as usize, &mut marks);
    }
    Ok(due)
}

/// Whether one of these numbers is marked. It is for speed alone which further rules a round takes, so no clause says it.
fn is_marked(numbers: &[u32], marks: &[bool]) -> bool {
    for number in numbers {
        let place = *number as usize;
        if place < marks.len() && marks[place] {
            return true;
        }
    }
    false
}

/// Marks a place, if that is asked for.
fn mark_if(test: bool, place: usize, marks: &mut [bool]) {
    if test && place < marks.len() {
        marks[place] = true;
    }
}

/// Adds the number of a rule, if it is due.
fn add_due(due: &mut Seq<u32>, number: u32, is_due: bool) -> Result<(), Memory>
    ensures { OnOk result (due.new ≡ cond is_due (due.old ++ number ∷ []) due.old) }
{
    if is_due {
        return due.push(number);
    }
    Ok(())
}

/// Whether a rule is due that reads the rows with these numbers, by their sum when it was computed last.
fn is_due(numbers: &[u32], last: Option<u128>, sums: &[u128]) -> bool
    ensures { (wide : ℕ) (words : List ℕ) → AreRowSums wide words sums.now → result ≡ false → last ≡ Some (sum_of_rows wide words numbers.now) }
{
    match last {
        Some(before) => match sum_at(sums, numbers) {
            Some(now) => before != now,
            None => true,
        },
        None => true,
    }
}
