//! The words with which the first round begins.
ghost use Rattle.std.specs.Prelude.{◌≡◌, ◌*◌, length, replicate, IfOk};
ghost use Rattle.lf_ast.specs.Rules.{rule_trees};
ghost use Rattle.lf_classes.specs.RowWords.{word_count};
ghost use Rattle.lf_semantics.specs.Environments.{recorded_names};
ghost use Rattle.lf_rounds.specs.Tasks.{IsBelowLeast};
ghost use Rattle.lf_rounds.specs.Words.{AreWords};

use lf_ast::Rule;
use lf_base::{Memory, Seq};
use lf_classes::{Universe, recorded_names};
use std::alloc::Global;

/// The words of rows in which no recorded name has a class: a first round may begin with them. Want of memory where they are more than can be counted.
pub fn first_words(
    alloc: Global,
    universe: &Universe,
    rules: &Seq<Rule>,
) -> Result<Seq<u64>, Memory>
    ensures zeros { IfOk result (λ words. words ≡ replicate (length words) 0) }
    ensures count { IfOk result (λ words. length words ≡ length (recorded_names (rule_trees rules.now)) * word_count universe.now) }
    ensures fit { IfOk result AreWords }
    ensures below { IfOk result (IsBelowLeast universe.now (rule_trees rules.now)) }
{
    let names = recorded_names(alloc, rules.as_slice())?;
    let words = clear_words(alloc, universe, names.len())?;
    Ok(words)
}

/// Clear words for so many names.
fn clear_words(alloc: Global, universe: &Universe, names: usize) -> Result<Seq<u64>, Memory>
    ensures { IfOk result (λ words. words ≡ replicate (names * word_count universe.now) 0) }
{
    let count = count_words(universe, names)?;
    let words = vec![in alloc; 0; count]?;
    Ok(Seq::from_vec(words))
}

/// How many words the rows of so many names have. Want of memory where they are more than can be counted.
pub(crate) fn count_words(universe: &Universe, names: usize) -> Result<usize, Memory>
    ensures { IfOk result (λ count. count ≡ names * word_count universe.now) }
{
    match names.checked_mul(universe.words() as usize) {
        Some(count) => Ok(count),
        None => Err(Memory),
    }
}
