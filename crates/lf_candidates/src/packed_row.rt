//! Rows as they are kept where there are many.
ghost use Rattle.std.specs.Prelude.{◌≡◌, ◌<◌, ◌++◌, ◌^◌, ℕ, [], length, not, replicate, slice_index_or, true, IfOk, OnOk};
ghost use Rattle.std.specs.Option.{option_map};
ghost use Rattle.lf_classes.specs.Limits.{IsWithin};
ghost use Rattle.lf_classes.specs.RowWords.{words_of_row};
ghost use Rattle.lf_semantics.specs.ClassRows.{HasShape, Sets, holds, is_live};
ghost use Rattle.lf_semantics.specs.Environments.{IsRow};
ghost use Rattle.lf_trials.specs.Candidates.{candidates_in, first};
ghost use Rattle.lf_candidates.specs.views.ClassTexts.{IsClass, first_held, name_at, text_at};
ghost use Rattle.lf_candidates.specs.views.Packed.{IsPacked, first_classes, packed, unpacked};

use crate::candidates::{class_held, first_held};
use lf_base::Memory;
use lf_classes::{Row, Universe};
use std::alloc::Global;
use std::marker::Model;

/// The number of the label `__name__`.
const METRIC: u32 = 0;

/// How many runs of words most rows have: words that are 0, the one with the name's bit, words that are 0 again, and the one with the bits of the other labels.
const FEW_RUNS: usize = 4;

/// Words behind one another that are the same: how many, and what they are.
#[derive(Clone, Copy, Drop)]
pub struct WordRun {
    pub(crate) count: u32,
    pub(crate) word: u64,
}

/// A row as it is kept: its words in runs of the same, and the first class that it has of each label. The label `__name__` has a class for each name, thousands in a large file,
/// and most rows have one of them, or all: nearly all of their words are the same. Many worlds ask for the first classes.
#[derive(Drop)]
pub struct PackedRow {
    runs: Vec<WordRun>,
    firsts: Vec<u32>,
    live: bool,
}

impl Model for PackedRow {
    ghost use Rattle.lf_candidates.specs.views.Packed.{PackedRow, unpacked};

    ghost Value = { PackedRow };

    ghost view = { λ row. record { words = unpacked row.runs.items; firsts = row.firsts.items; live = row.live } };
}

impl PackedRow {
    /// A row, packed. Of `__name__` the likely classes are tried before the others: each of them takes a look at the words of the row, while the classes one by one are thousands.
    pub fn of(
        alloc: Global,
        universe: &Universe,
        row: &Row,
        likely: &[u32],
    ) -> Result<PackedRow, Memory>
        requires universe { IsWithin universe.now }
        requires shape { HasShape universe.now row.now }
        ensures { IfOk result (λ kept. kept ≡ packed universe.now row.now) }
    {
        Ok(PackedRow {
            runs: runs_of(alloc, universe, row)?,
            firsts: first_classes(alloc, universe, row, likely)?,
            live: !row.is_empty(),
        })
    }

    /// The row.
    pub fn row(&self, universe: &Universe) -> Result<Row, Memory>
        requires universe { IsWithin universe.now }
        requires row { (row : Sets) × IsRow universe.now row × (self.now ≡ packed universe.now row) }
        ensures { (row : Sets) → IsRow universe.now row → self.now ≡ packed universe.now row → IfOk result (λ whole. whole ≡ row) }
    {
        let words = self.words(universe)?;
        Row::of_words(*words.allocator(), universe, words.as_slice())
    }

    /// The words of the row.
    fn words(&self, universe: &Universe) -> Result<Vec<u64>, Memory>
        ensures { IfOk result (λ words. words.items ≡ self.now.words) }
    {
        let alloc = *self.runs.allocator();
        let mut words = Vec::with_capacity(alloc, universe.words() as usize)?;
        for run in &self.runs {
            words.resize(words.len() + run.count as usize, run.word)?;
        }
        Ok(words)
    }

    /// Whether no label has a class.
    pub fn is_empty(&self) -> bool
        ensures { result ≡ not self.now.live }
    {
        !self.live
    }

    /// The class of a label's first candidate in the row.
    pub fn first_class(&self, universe: &Universe, label: u32) -> Option<u32>
        requires universe { IsWithin universe.now }
        requires label { label < length universe.now.named }
        requires row { (row : Sets) × IsPacked universe.now row self.now }
        ensures class { IsClass universe.now label result }
        ensures candidate { (row : Sets) → IsPacked universe.now row self.now → option_map (text_at universe.now label) result ≡ first (candidates_in universe.now row (name_at universe.now label)) }
    {
        class_held(universe, label, self.firsts[label as usize])
    }
}

/// The words of a row, in runs.
fn runs_of(alloc: Global, universe: &Universe, row: &Row) -> Result<Vec<WordRun>, Memory>
    requires shape { HasShape universe.now row.now }
    ensures { IfOk result (λ runs. unpacked runs.items ≡ words_of_row universe.now row.now) }
{
    let mut words = vec![in alloc; 0; universe.words() as usize]?;
    row.write_words(&mut words);
    runs_in(alloc, words.as_slice())
}

/// These words, in runs.
fn runs_in(alloc: Global, words: &[u64]) -> Result<Vec<WordRun>, Memory>
    requires { length words.now < 2 ^ 32 }
    ensures { IfOk result (λ runs. unpacked runs.items ≡ words.now) }
{
    let mut runs = Vec::with_capacity(alloc, FEW_RUNS)?;
    let mut first = 0;
    let mut same = 0;
    for place in 0..words.len() {
        let word = words[place];
        if word != same {
            push_run(&mut runs, place - first, same)?;
            first = place;
            same = word;
        }
    }
    push_run(&mut runs, words.len() - first, same)?;
    Ok(runs)
}

/// Puts a run of so many words behind others, if there is a word in it.
fn push_run(runs: &mut Vec<WordRun>, count: usize, word: u64) -> Result<(), Memory>
    requires { count < 2 ^ 32 }
    ensures { OnOk result (unpacked runs.new.items ≡ unpacked runs.old.items ++ replicate count word) }
{
    if count > 0 {
        runs.push(WordRun {
            count: count as u32,
            word,
        })?;
    }
    Ok(())
}

/// The first class that a row has of each label, or how many classes the label has, where the row has none of them.
fn first_classes(
    alloc: Global,
    universe: &Universe,
    row: &Row,
    likely: &[u32],
) -> Result<Vec<u32>, Memory>
    requires universe { IsWithin universe.now }
    requires shape { HasShape universe.now row.now }
    ensures { IfOk result (λ firsts. firsts.items ≡ first_classes row.now) }
{
    let mut firsts = Vec::with_capacity(alloc, universe.labels() as usize)?;
    firsts.push(first_name(universe, row, likely)?)?;
    for label in 1..universe.labels() {
        firsts.push(first_held(universe, row, label))?;
    }
    Ok(firsts)
}

/// The first class that a row has of `__name__`, or how many classes the label has, where the row has none of them.
fn first_name(universe: &Universe, row: &Row, likely: &[u32]) -> Result<u32, Memory>
    requires universe { IsWithin universe.now }
    requires shape { HasShape universe.now row.now }
    ensures { IfOk result (λ first. first ≡ first_held row.now 0) }
{
    for class in likely {
        if is_alone(universe, row, *class)? {
            return Ok(*class);
        }
    }
    Ok(first_held(universe, row, METRIC))
}

/// Whether a class is the only one that a row has of `__name__`.
fn is_alone(universe: &Universe, row: &Row, class: u32) -> Result<bool, Memory>
    requires universe { IsWithin universe.now }
    requires shape { HasShape universe.now row.now }
    ensures { IfOk result (λ alone. alone ≡ true → class ≡ first_held row.now 0) }
{
    if !has_name(universe, row, class) {
        return Ok(false);
    }
    let mut only = row.copy()?;
    only.keep_class(METRIC, class);
    Ok(only.covers(row))
}

/// Whether a row isn't empty and has a class of `__name__`, if there is one of the number.
fn has_name(universe: &Universe, row: &Row, class: u32) -> bool
    requires universe { IsWithin universe.now }
    requires shape { HasShape universe.now row.now }
    ensures live { result ≡ true → is_live row.now ≡ true }
    ensures within { result ≡ true → class < length (slice_index_or row.now 0 []) }
    ensures has { result ≡ true → holds row.now 0 class ≡ true }
{
    !row.is_empty() && class < universe.classes(METRIC) && row.has(METRIC, class)
}
