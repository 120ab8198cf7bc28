//! Names of recording rules, of which some are marked.
ghost use Rattle.std.specs.Prelude.{◌≡◌, ◌<◌, ◌∷◌, ◌⊎◌, ◌↔◌, [], ℕ, Some, false, length, slice_index_or, true, IfOk};
ghost use Rattle.std.specs.List.{Contains};
ghost use Rattle.std.specs.Option.{option_copied};
ghost use Rattle.lf_ast.specs.Rules.{rule_trees};
ghost use Rattle.lf_semantics.specs.Listing.{place};
ghost use Rattle.lf_forks.specs.views.NameMarks.{AreUnmarked, Marks, has_mark};

use lf_ast::Rule;
use lf_base::{Memory, Seq, Text};
use lf_classes::{TextSet, recorded_names};
use std::alloc::Global;
use std::marker::Model;

/// What is told of selectors: for each recorded name, and for a selector that says none, whether it is marked. Another name isn't.
#[derive(Drop)]
pub struct NameMarks {
    pub(crate) names: TextSet,
    pub(crate) marked: Vec<bool>,
    pub(crate) without_name: bool,
}

impl Model for NameMarks {
    ghost use Rattle.lf_forks.specs.views.NameMarks.{NameMarks};

    ghost Value = { NameMarks };

    ghost view = { λ m. record { names = m.names; marked = m.marked.items; without_name = m.without_name } };
}

impl NameMarks {
    /// The names of recording rules, of which none is marked.
    pub fn none(alloc: Global, rules: &Seq<Rule>) -> Result<NameMarks, Memory>
        ensures { IfOk result (AreUnmarked (rule_trees rules.now)) }
    {
        let names = recorded_names(alloc, rules.as_slice())?;
        let marked = vec![in alloc; false; names.len()]?;
        Ok(NameMarks {
            names,
            marked,
            without_name: false,
        })
    }

    /// Marks a name, if it is recorded, and selectors that say none.
    pub fn mark(&mut self, name: &str)
        ensures { Marks (place self.old.names name.now ∷ []) self.old self.new }
    {
        let place = self.names.place(name);
        self.mark_place(place);
    }

    /// Marks the name at a place, if there is one, and selectors that say none.
    pub(crate) fn mark_place(&mut self, place: usize)
        ensures { Marks (place ∷ []) self.old self.new }
    {
        mark_at(&mut self.marked, place);
        self.without_name = true;
    }

    /// Whether a selector is marked, by the name that it says.
    pub fn has(&self, name: Option<&Text>) -> bool
        ensures { result ≡ has_mark self.now (option_copied name.entry) }
    {
        match name {
            Some(name) => self.has_name(name.as_str()),
            None => self.without_name,
        }
    }

    /// Whether a selector of a name is marked.
    fn has_name(&self, name: &str) -> bool
        ensures { result ≡ has_mark self.now (Some name.now) }
    {
        let place = self.names.place(name);
        place < self.marked.len() && self.marked[place]
    }
}

/// Marks a place, if it is there.
fn mark_at(marked: &mut Vec<bool>, place: usize)
    ensures count { length marked.new.items ≡ length marked.old.items }
    ensures marked { (p : ℕ) → p < length marked.old.items → (slice_index_or marked.new.items p false ≡ true) ↔ ((slice_index_or marked.old.items p false ≡ true) ⊎ Contains (place ∷ []) p) }
{
    if place < marked.len() {
        marked[place] = true;
    }
}
