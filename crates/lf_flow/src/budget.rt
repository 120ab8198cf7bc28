//! How much a run may spend on its patterns.
ghost use Rattle.std.specs.Prelude.{◌≡◌, ◌<◌, OnErr, OnOk};
ghost use Rattle.lf_flow.specs.views.Budget.{TakesTries, TakesWords, most_tries, most_cached_words, tries_of};

use lf_base::Memory;

/// The most tries of a run: some two seconds, on a machine that tries a pattern on some 8 million classes in a second.
///
/// A pattern that isn't plain is tried on each class of its label, and makes up to two classes there. So the tries grow with the square of the number of such patterns on
/// one label: with the classes that they make, 1,000 patterns such as `t17-.*` are within the budget.
const MOST_TRIES: u64 = 16_000_000;

/// As many tries as take the time of reading a small pattern, some 125 microseconds on that machine: it is read when its rule is accepted, for its samples, and for its
/// row. So a run has less than 16,000 rows of patterns that aren't plain, and these have less than 125 MiB together: 8 KiB each at most, a bit for each of the 65,536 classes
/// that there may be.
const TRIES_OF_READING: u64 = 1_000;

/// As many as take the time of reading a character more, by the size of the pattern.
const TRIES_OF_SIZE: u64 = 8;

/// How many states that are followed over a byte count as one try: a pattern's width times the bytes that it is tried on, divided by this. Mostly that takes far less time, since
/// what is learned of the pattern at one byte is kept for the next; but a pattern can be made so that there is something to learn at each, and then a state takes up to 14 nanoseconds.
const STEPS_OF_TRY: u64 = 8;

/// The most words that the cached rows of plain patterns may have together: 32 MiB.
const MOST_CACHED_WORDS: u32 = 4_194_304;

/// What is left of the tries and of the room that the patterns of a run may have.
#[derive(Drop)]
pub struct PatternBudget {
    tries: u64,
    words: u32,
}

impl PatternBudget {
    /// The budget of a run.
    pub fn new() -> PatternBudget
        ensures { result ≡ record { tries = most_tries; words = most_cached_words } }
    {
        PatternBudget {
            tries: MOST_TRIES,
            words: MOST_CACHED_WORDS,
        }
    }

    /// Takes the tries of a pattern of this size and width that is read, and tried on so many classes, whose texts have so many bytes. `Memory` where there aren't as many
    /// left; then none is taken.
    pub fn take_tries(
        &mut self,
        size: u64,
        width: u64,
        classes: u32,
        bytes: u64,
    ) -> Result<(), Memory>
        ensures taken { OnOk result (TakesTries (tries_of size width classes bytes) self.old self.new) }
        ensures refused { OnErr result (self.old.tries < tries_of size width classes bytes) }
        ensures kept { OnErr result (self.new ≡ self.old) }
    {
        match self
            .tries
            .checked_sub(tries_of(size, width, classes, bytes))
        {
            Some(left) => {
                self.tries = left;
                Ok(())
            }
            None => Err(Memory),
        }
    }

    /// Takes the words of a plain pattern's row, and answers whether there are as many left; if not, none is taken.
    pub fn take_words(&mut self, words: u32) -> bool
        ensures { TakesWords words result self.old self.new }
    {
        match self.words.checked_sub(words) {
            Some(left) => {
                self.words = left;
                true
            }
            None => false,
        }
    }
}

/// The tries that take as long as reading a pattern of this size and width, and trying it on so many classes, whose texts have so many bytes.
fn tries_of(size: u64, width: u64, classes: u32, bytes: u64) -> u64
    ensures { result ≡ tries_of size width classes bytes }
{
    let reading = size
        .saturating_mul(TRIES_OF_SIZE)
        .saturating_add(TRIES_OF_READING);
    let trying = (width.saturating_mul(bytes) / STEPS_OF_TRY).saturating_add(u64::from(classes));
    reading.saturating_add(trying)
}
