//! The rows that a worker has at hand, and their words.
ghost use Rattle.std.specs.Prelude.{◌≡◌, ◌<◌, true, length, IfOk};
ghost use Rattle.lf_classes.specs.RowWords.{row_of_words, word_count};
ghost use Rattle.lf_flow.specs.Reads.{with_row};
ghost use Rattle.lf_semantics.specs.Environments.{IsEnvironment};
ghost use Rattle.lf_semantics.specs.Listing.{IsListing};
ghost use Rattle.lf_rounds.specs.views.Working.{HasRoom};

use lf_base::Memory;
use lf_classes::{Row, Universe};
use lf_flow::Env;
use std::alloc::Global;

/// Room for the words of a row that is loaded, and of one that is at hand.
#[derive(Drop)]
pub(crate) struct RowRoom {
    pub(crate) loaded: Vec<u64>,
    pub(crate) own: Vec<u64>,
}

impl RowRoom {
    /// Room for so many words.
    pub(crate) fn of(alloc: Global, width: u32) -> Result<RowRoom, Memory>
        ensures { IfOk result (HasRoom width) }
    {
        let loaded = vec![in alloc; 0; width as usize]?;
        let own = vec![in alloc; 0; width as usize]?;
        Ok(RowRoom { loaded, own })
    }
}

/// Gives the name with a number the row of these words. A row that has them stays: it was computed or loaded before. The words of the row at hand are written into `own`.
pub(crate) fn take_row(
    alloc: Global,
    universe: &Universe,
    env: &mut Env,
    number: u32,
    words: &[u64],
    own: &mut Vec<u64>,
) -> Result<(), Memory>
    requires listing { IsListing universe.now }
    requires env { IsEnvironment universe.now env.old }
    requires number { number < length env.old }
    requires words { length words.now ≡ word_count universe.now }
    requires room { length own.old.items ≡ word_count universe.now }
    ensures taken { IfOk result (λ _. env.new ≡ with_row number (row_of_words universe.now words.now) env.old) }
    ensures room { length own.new.items ≡ length own.old.items }
{
    env.row_at(number).write_words(own);
    if are_same(own.as_slice(), words) {
        return Ok(());
    }
    let row = Row::of_words(alloc, universe, words)?;
    env.put(number, row);
    Ok(())
}

/// Whether as many words are the same. All are looked at, since then several are compared at once.
fn are_same(words: &[u64], others: &[u64]) -> bool
    requires { length words.now ≡ length others.now }
    ensures { result ≡ true → words.now ≡ others.now }
{
    let mut different = 0_usize;
    for k in 0..words.len() {
        if words[k] != others[k] {
            different += 1;
        }
    }
    different == 0
}
