//! The rules left to be ordered, and which of them wait.
ghost use Rattle.std.specs.Prelude.{◌≡◌, ◌≤◌, ◌<◌, ◌+◌, ℕ, true, [], ◌∷◌, length, slice_index_or, slice_set, IfOk, OnOk};
ghost use Rattle.std.specs.List.{Contains, range_with_len};
ghost use Rattle.lf_deps.specs.views.Queue.{Chooses, CountsDown, IsLeft, IsQueue, IsReady, IsStart, IsWhole, Settles, TakesNext, occurs, occurs_in};

use crate::links::Links;
use crate::number_queue::NumberQueue;
use lf_base::{Memory, Seq};
use lf_graph::{Buckets, one_more};
use std::alloc::Global;

/// The rules left to be ordered. A rule waits while a rule left records one of its sources: it is listed at one such source, and looked at again once no rule left
/// records that.
#[derive(Drop)]
pub(crate) struct Queue {
    /// How many of the rules left record each source.
    counts: Vec<usize>,
    /// The rules that are looked at again once no rule left records a source.
    listed: Buckets,
    /// How many of its sources each rule has behind it, since no rule left records them.
    seen: Vec<usize>,
    /// The rules to be looked at.
    due: Seq<usize>,
    /// The rules left that don't wait.
    free: NumberQueue,
    /// Whether each rule is taken.
    taken: Vec<bool>,
    /// No rule before it is left.
    least: usize,
}

impl Queue {
    /// That of all rules.
    pub(crate) fn of(alloc: Global, links: &Links) -> Result<Queue, Memory>
        requires { IsWhole links.now }
        ensures { IfOk result (IsStart links.now) }
    {
        let rules = links.waited.len();
        let mut queue = Queue {
            counts: count_all(alloc, links)?,
            listed: Buckets::empty(alloc, links.sources)?,
            seen: vec![in alloc; 0; rules]?,
            due: numbers(alloc, rules)?,
            free: NumberQueue::new(alloc),
            taken: vec![in alloc; false; rules]?,
            least: 0,
        };
        queue.settle_due(links)?;
        Ok(queue)
    }

    /// Takes the least rule left that doesn't wait, and where each waits the least of all.
    pub(crate) fn next(&mut self, links: &Links) -> Result<usize, Memory>
        requires whole { IsWhole links.now }
        requires ready { IsReady links.now self.old }
        requires some { (k : ℕ) × IsLeft self.old.taken.items k }
        ensures { IfOk result (TakesNext links.now self.old self.new) }
    {
        let rule = self.choose();
        mark(&mut self.taken, rule);
        count_down_all(
            &mut self.counts,
            &self.listed,
            &mut self.due,
            links.recorded.get(rule).as_slice(),
        )?;
        self.settle_due(links)?;
        Ok(rule)
    }

    /// The next rule to be taken. It isn't free any more.
    fn choose(&mut self) -> usize
        requires some { (k : ℕ) × IsLeft self.old.taken.items k }
        requires low { (j : ℕ) → j < self.old.least → slice_index_or self.old.taken.items j true ≡ true }
        requires free { (k : ℕ) → Contains self.old.free k → IsLeft self.old.taken.items k }
        ensures { Chooses self.old self.new result }
    {
        match self.free.take_least() {
            Some(rule) => rule,
            None => {
                self.least = first_left(self.taken.as_slice(), self.least);
                self.least
            }
        }
    }

    /// Looks at each rule that is due.
    fn settle_due(&mut self, links: &Links) -> Result<(), Memory>
        requires whole { IsWhole links.now }
        requires queue { IsQueue links.now self.old [] }
        ensures settled { OnOk result (Settles links.now self.old self.new) }
        ensures none_due { OnOk result (self.new.due ≡ []) }
    {
        while let Some(rule) = self.due.pop() {
            self.settle(links, rule)?;
        }
        Ok(())
    }

    /// Lists a rule at the first of its sources that a rule left records, or frees it where there is none.
    fn settle(&mut self, links: &Links, rule: usize) -> Result<(), Memory>
        requires whole { IsWhole links.now }
        requires queue { IsQueue links.now self.old (rule ∷ []) }
        requires rule { rule < length links.now.waited }
        ensures settled { OnOk result (Settles links.now self.old self.new) }
        ensures same_due { OnOk result (self.new.due ≡ self.old.due) }
    {
        if self.taken[rule] {
            return Ok(());
        }
        let sources = links.waited.get(rule).as_slice();
        let place = first_recorded(sources, self.seen[rule], self.counts.as_slice());
        put(&mut self.seen, rule, place);
        if place < sources.len() {
            self.listed.push(sources[place], rule)?;
            return Ok(());
        }
        self.free.add(rule)?;
        Ok(())
    }
}

/// How many rules record each source.
fn count_all(alloc: Global, links: &Links) -> Result<Vec<usize>, Memory>
    requires { IsWhole links.now }
    ensures count { IfOk result (λ counts. length counts.items ≡ links.now.sources) }
    ensures counts { IfOk result (λ counts. (s : ℕ) → s < links.now.sources → slice_index_or counts.items s 0 ≡ occurs_in s links.now.recorded) }
{
    let mut counts = vec![in alloc; 0; links.sources]?;
    for k in 0..links.recorded.len() {
        count_up_all(&mut counts, links.recorded.get(k).as_slice())?;
    }
    Ok(counts)
}

/// Counts each of the sources once more.
fn count_up_all(counts: &mut [usize], sources: &[usize]) -> Result<(), Memory>
    requires { (s : ℕ) → Contains sources.now s → s < length counts.old }
    ensures { OnOk result ((s : ℕ) → s < length counts.old → slice_index_or counts.new s 0 ≡ slice_index_or counts.old s 0 + occurs s sources.now) }
{
    for source in sources {
        counts[*source] = one_more(counts[*source])?;
    }
    Ok(())
}

/// Counts each of the sources down, and puts what is listed at those that come to none behind what is due.
fn count_down_all(
    counts: &mut [usize],
    listed: &Buckets,
    due: &mut Seq<usize>,
    sources: &[usize],
) -> Result<(), Memory>
    requires within { (s : ℕ) → Contains sources.now s → s < length counts.old }
    requires lists { length listed.now ≡ length counts.old }
    requires enough { (s : ℕ) → occurs s sources.now ≤ slice_index_or counts.old s 0 }
    ensures { OnOk result (CountsDown listed.now sources.now counts.old counts.new due.old due.new) }
{
    for source in sources {
        count_down(counts, listed, due, *source)?;
    }
    Ok(())
}

/// Counts a source down, and where it comes to none puts what is listed there behind what is due.
fn count_down(
    counts: &mut [usize],
    listed: &Buckets,
    due: &mut Seq<usize>,
    source: usize,
) -> Result<(), Memory>
    requires within { source < length counts.old }
    requires lists { length listed.now ≡ length counts.old }
    requires enough { 0 < slice_index_or counts.old source 0 }
    ensures { OnOk result (CountsDown listed.now (source ∷ []) counts.old counts.new due.old due.new) }
{
    counts[source] -= 1;
    if counts[source] == 0 {
        due.extend_from_slice(listed.at(source))?;
    }
    Ok(())
}

/// The place of the first source from one on that a rule left records, and behind the last where there is none.
fn first_recorded(sources: &[usize], from: usize, counts: &[usize]) -> usize
    requires { (s : ℕ) → Contains sources.now s → s < length counts.now }
    ensures none { (i : ℕ) → from ≤ i → i < result → slice_index_or counts.now (slice_index_or sources.now i 0) 0 ≡ 0 }
    ensures some { result < length sources.now → 0 < slice_index_or counts.now (slice_index_or sources.now result 0) 0 }
    ensures within { result ≤ length sources.now }
{
    for place in from..sources.len() {
        if counts[sources[place]] > 0 {
            return place;
        }
    }
    sources.len()
}

/// The first rule that isn't taken, from a place before which each is.
fn first_left(taken: &[bool], from: usize) -> usize
    requires some { (k : ℕ) × IsLeft taken.now k }
    requires low { (j : ℕ) → j < from → slice_index_or taken.now j true ≡ true }
    ensures left { IsLeft taken.now result }
    ensures low { (j : ℕ) → j < result → slice_index_or taken.now j true ≡ true }
{
    let mut place = from;
    while taken[place] {
        place += 1;
    }
    place
}

/// The numbers below a count.
pub(crate) fn numbers(alloc: Global, count: usize) -> Result<Seq<usize>, Memory>
    ensures { IfOk result (λ numbers. numbers ≡ range_with_len 0 count) }
{
    let mut numbers = Seq::with_capacity(alloc, count)?;
    for k in 0..count {
        numbers.push(k)?;
    }
    Ok(numbers)
}

/// Writes a number at a place.
fn put(numbers: &mut Vec<usize>, place: usize, number: usize)
    requires { place < length numbers.old.items }
    ensures { numbers.new.items ≡ slice_set numbers.old.items place number }
{
    numbers[place] = number;
}

/// Marks a place.
fn mark(marks: &mut Vec<bool>, place: usize)
    requires { place < length marks.old.items }
    ensures { marks.new.items ≡ slice_set marks.old.items place true }
{
    marks[place] = true;
}
