//! Label sets.
ghost use Rattle.std.specs.Prelude.{Bool, ◌≡◌, ◌≢◌, ◌<◌, ◌≤◌, cond, not, [], length, slice_get, slice_index_or, slice_set, IfErr, IfOk, IfSome, OnErr, OnOk, Some};
ghost use Rattle.std.specs.List.{filter, insert};
ghost use Rattle.std.specs.Option.{option_copied};
ghost use Rattle.std.specs.FinMap as map;
ghost use Rattle.std.specs.Ordering.{eq_by_cmp, nat_cmp};
ghost use Rattle.std.specs.Cmp.Lexicographic.{slice_cmp};
ghost use Rattle.std.specs.Str.{bytes_eq};
ghost use Rattle.lf_ast.specs.Labels.{Bytes, HasNoEmptyText};

use lf_base::{Memory, Text};
use std::alloc::{AllocError, Global};
use std::cmp::Ordering;
use std::marker::Model;

/// How many labels a set that gets its first one has room for. Most series of the worlds that show a verdict have no more: a metric name and a label.
const FIRST_ROOM: usize = 2;

/// A choice among labels by their names.
pub trait LabelChoice {
    /// Whether a label is chosen.
    ghost chooses: { Self → Bytes → Bool };

    /// Whether a label is chosen.
    fn chooses(&self, label: &str) -> bool
        ensures { result ≡ chooses self.now label.now };
}

/// A finite map from label names to texts that aren't empty. `__name__` is a label like any other. The entries stand in ascending order of the names.
#[derive(Drop, Debug)]
pub struct LabelSet {
    entries: Vec<(Text, Text)>,
}

impl Model for LabelSet {
    ghost use Rattle.std.specs.Prelude.{IsTrue};
    ghost use Rattle.std.specs.Cmp.Lexicographic.{slice_cmp};
    ghost use Rattle.std.specs.FinMap as map;
    ghost use Rattle.std.specs.Ordering.{nat_cmp};
    ghost use Rattle.std.specs.Coded.{coded_ℕ, coded_list};
    ghost use Rattle.lf_ast.specs.Labels.{Labels, HasNoEmptyText};

    ghost Value = { Labels };

    ghost coded = { map.code (coded_list coded_ℕ) (coded_list coded_ℕ) };

    ghost view = { λ s. map.from_sorted s.entries.items };

    ghost invariant = { λ s. IsTrue (map.is_sorted (slice_cmp nat_cmp) s.entries.items) × HasNoEmptyText s.entries.items };
}

impl LabelSet {
    /// No label.
    pub fn new(alloc: Global) -> LabelSet
        ensures { result ≡ map.empty }
    {
        LabelSet {
            entries: Vec::new(alloc),
        }
    }

    /// The text of a label, if it is there. It isn't empty.
    pub fn get(&self, name: &str) -> Option<&Text>
        ensures value { option_copied result ≡ map.get self.now name.now }
        ensures some { IfSome result (λ text. text.now ≢ []) }
    {
        find_in(self.entries.as_slice(), name)
    }

    /// How many labels there are. None of them has an empty text.
    pub fn len(&self) -> usize
        ensures value { result ≡ map.len self.now }
        ensures texts { HasNoEmptyText (map.entries self.now) }
    {
        self.entries().len()
    }

    /// The label at `k`, counted from 0 in ascending order of the names, and its text, which isn't empty.
    pub fn pair(&self, k: usize) -> (&Text, &Text)
        requires { k < map.len self.now }
        ensures value { slice_get (map.entries self.now) k ≡ Some (result.0.now, result.1.now) }
        ensures text { result.1.now ≢ [] }
    {
        both_of(self.entries(), k)
    }

    /// Sets the text of a label. An empty text removes it. After `Memory` nothing is changed.
    pub fn set(&mut self, name: &Text, text: &Text) -> Result<(), Memory>
        ensures ok { OnOk result (self.new ≡ cond (bytes_eq text.now []) (map.remove self.old name.now) (map.insert self.old name.now text.now)) }
        ensures err { OnErr result (self.new ≡ self.old) }
    {
        if text.len() == 0 {
            take_out(&mut self.entries, name.as_str());
            Ok(())
        } else {
            put(&mut self.entries, name, text)
        }
    }

    /// The labels of a choice, with their texts.
    pub fn kept<C: LabelChoice>(&self, choice: &C) -> Result<LabelSet, Memory>
        ensures { IfOk result (λ it. it ≡ map.retain_keys self.now (C.chooses choice.now)) }
    {
        let entries = chosen(*self.entries.allocator(), self.entries.as_slice(), choice)?;
        Ok(LabelSet { entries })
    }

    /// An equal label set.
    pub fn copy(&self) -> Result<LabelSet, Memory>
        ensures { IfOk result (λ it. it ≡ self.now) }
    {
        let entries = copies(*self.entries.allocator(), self.entries.as_slice())?;
        Ok(LabelSet { entries })
    }

    /// The labels and their texts, in ascending order of the names.
    pub(crate) fn entries(&self) -> &[(Text, Text)]
        ensures value { result.now ≡ map.entries self.now }
        ensures texts { HasNoEmptyText (map.entries self.now) }
    {
        self.entries.as_slice()
    }
}

impl Clone for LabelSet {
    ghost is_clone = { λ s t. t ≡ s };

    fn clone(&self) -> Result<LabelSet, AllocError> {
        match self.copy() {
            Ok(copied) => Ok(copied),
            Err(Memory) => Err(AllocError),
        }
    }
}

/// The text of the first entry of this name.
fn find_in<'a>(entries: &'a [(Text, Text)], name: &str) -> Option<&'a Text>
    ensures { option_copied result ≡ map.find (slice_cmp nat_cmp) name.now entries.entry.now }
{
    for k in 0..entries.len() {
        let entry = &entries[k];
        if entry.0.as_str() == name {
            return Some(&entry.1);
        }
    }
    None
}

/// The name and the text of an entry.
fn both_of(entries: &[(Text, Text)], k: usize) -> (&Text, &Text)
    requires { k < length entries.now }
    ensures { slice_get entries.entry.now k ≡ Some (result.0.now, result.1.now) }
{
    let entry = &entries[k];
    (&entry.0, &entry.1)
}

/// Where an entry of this name stands among entries in ascending order of their names, or before which one it would stand.
fn place_of(entries: &[(Text, Text)], name: &str) -> Result<usize, usize>
    ensures stands { IfOk result (λ k. (k < length entries.now) × ((text : Bytes) (d : Bytes × Bytes) → map.put (slice_cmp nat_cmp) name.now text entries.now ≡ slice_set entries.now k ((slice_index_or entries.now k d).0, text))) }
    ensures lacks { IfErr result (λ k. (k ≤ length entries.now) × ((text : Bytes) → map.put (slice_cmp nat_cmp) name.now text entries.now ≡ insert entries.now k (name.now, text))) }
{
    for k in 0..entries.len() {
        let entry = &entries[k];
        match name.cmp(entry.0.as_str()) {
            Ordering::Less => return Err(k),
            Ordering::Equal => return Ok(k),
            Ordering::Greater => {}
        }
    }
    Err(entries.len())
}

/// Puts an entry in its place, or its text in place of that of the entry of its name.
fn put(entries: &mut Vec<(Text, Text)>, name: &Text, text: &Text) -> Result<(), Memory>
    ensures ok { OnOk result (entries.new.items ≡ map.put (slice_cmp nat_cmp) name.now text.now entries.old.items) }
    ensures err { OnErr result (entries.new.items ≡ entries.old.items) }
{
    let text = text.copy()?;
    match place_of(entries.as_slice(), name.as_str()) {
        Ok(k) => {
            entries[k].1 = text;
            Ok(())
        }
        Err(k) => {
            let name = name.copy()?;
            if entries.is_empty() {
                entries.reserve_exact(FIRST_ROOM)?;
            }
            entries.insert(k, (name, text))?;
            Ok(())
        }
    }
}

/// Takes out the entries of this name.
fn take_out(entries: &mut Vec<(Text, Text)>, name: &str)
    ensures { entries.new.items ≡ filter (λ entry. not (eq_by_cmp (slice_cmp nat_cmp) name.now entry.0)) entries.old.items }
{
    entries.retain(|entry| name.cmp(entry.0.as_str()).is_ne());
}

/// Equal entries of those whose names are chosen.
fn chosen<C: LabelChoice>(
    alloc: Global,
    entries: &[(Text, Text)],
    choice: &C,
) -> Result<Vec<(Text, Text)>, Memory>
    ensures { IfOk result (λ kept. kept.items ≡ filter (λ entry. C.chooses choice.now entry.0) entries.now) }
{
    let mut kept = Vec::new(alloc);
    for entry in entries {
        if choice.chooses(entry.0.as_str()) {
            kept.push((entry.0.copy()?, entry.1.copy()?))?;
        }
    }
    Ok(kept)
}

/// Equal entries.
fn copies(alloc: Global, entries: &[(Text, Text)]) -> Result<Vec<(Text, Text)>, Memory>
    ensures { IfOk result (λ copied. copied.items ≡ entries.now) }
{
    let mut copied = Vec::with_capacity(alloc, entries.len())?;
    for entry in entries {
        copied.push((entry.0.copy()?, entry.1.copy()?))?;
    }
    Ok(copied)
}
