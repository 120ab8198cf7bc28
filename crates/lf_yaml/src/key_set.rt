//! Sets of the texts of keys.
ghost use Rattle.std.specs.Prelude.{◌≡◌, ℕ, List, [], ◌∷◌, ◌++◌, OnOk};
ghost use Rattle.lf_yaml.specs.reading.Trees.{has};
ghost use Rattle.lf_yaml.specs.views.KeySets.{HasKeys};

use lf_base::{Memory, Seq, Text};
use std::alloc::Global;
use std::collections::BTreeSet;

/// How many texts are kept side by side. Most mappings have no more keys.
const FEW: usize = 8;

/// The texts of the keys of a mapping that stand before.
#[derive(Drop)]
pub struct KeySet {
    alloc: Global,
    /// The first of them, which are looked through one by one.
    few: Seq<Text>,
    /// The others, in order, since a mapping may have a hundred thousand keys, and keys can be chosen so that a table of hashes finds all of them in one place.
    many: BTreeSet<String>,
}

impl KeySet {
    /// The set with no text.
    pub fn new(alloc: Global) -> KeySet
        ensures { HasKeys result [] }
    {
        KeySet {
            alloc,
            few: Seq::new(alloc),
            many: BTreeSet::new(alloc),
        }
    }

    /// Whether the text is in the set.
    pub fn contains(&self, text: &str) -> bool
        ensures { (keys : List (List ℕ)) → HasKeys self.now keys → result ≡ has keys text.now }
    {
        stands_among(self.few.as_slice(), text) || self.many.contains(text)
    }

    /// Puts a copy of a text into the set.
    pub fn add(&mut self, text: &str) -> Result<(), Memory>
        ensures { (keys : List (List ℕ)) → HasKeys self.old keys → OnOk result (HasKeys self.new (keys ++ text.now ∷ [])) }
    {
        if self.few.len() < FEW {
            let copy = Text::of(self.alloc, text)?;
            self.few.push(copy)
        } else {
            let copy = String::from_str(self.alloc, text)?;
            self.many.insert(copy)?;
            Ok(())
        }
    }
}

/// Whether a text is one of these.
fn stands_among(texts: &[Text], text: &str) -> bool
    ensures { result ≡ has texts.now text.now }
{
    let mut rest = texts;
    while let Some((other, others)) = rest.split_first() {
        if other.as_str() == text {
            return true;
        }
        rest = others;
    }
    false
}
