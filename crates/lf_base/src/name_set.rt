//! Sets of names.
ghost use Rattle.std.specs.Prelude.{◌≡◌, ℕ, List, false, not, ◌||◌, IfOk, OnErr, OnOk};
ghost use Rattle.std.specs.Str.{bytes_eq};
ghost use Rattle.lf_base.specs.views.NameSets.{has};

use crate::Memory;
use std::alloc::Global;
use std::collections::BTreeSet;

/// A set of names, which it borrows. It keeps them in order, since a file may have a hundred thousand groups and a list of labels a million names, and names can be chosen so
/// that a table of hashes finds all of them in one place.
#[derive(Drop)]
pub struct NameSet<'a> {
    names: BTreeSet<&'a str>,
}

impl<'a> NameSet<'a> {
    /// The set with no name.
    pub fn new(alloc: Global) -> NameSet<'a>
        ensures { (other : List ℕ) → has result other ≡ false }
    {
        NameSet {
            names: BTreeSet::new(alloc),
        }
    }

    /// Whether the name is in the set.
    pub fn contains(&self, name: &str) -> bool
        ensures { result ≡ has self.now name.now }
    {
        self.names.contains(name)
    }

    /// Puts a name into the set, and says whether it is new there.
    pub fn add(&mut self, name: &'a str) -> Result<bool, Memory>
        ensures new { IfOk result (λ new. new ≡ not (has self.old name.now)) }
        ensures members { OnOk result ((other : List ℕ) → has self.new other ≡ (bytes_eq other name.now || has self.old other)) }
        ensures err { OnErr result ((other : List ℕ) → has self.new other ≡ has self.old other) }
    {
        let new = self.names.insert(name)?;
        Ok(new)
    }
}
