//! What each rule selects, and which rules record each name.
ghost use Rattle.std.specs.Prelude.{◌≡◌, ◌<◌, ◌∷◌, ◌++◌, [], List, cond, length, slice_index_or, IfOk, OnOk};
ghost use Rattle.lf_ast.specs.Rules.{RuleTree, rule_tree, rule_trees};
ghost use Rattle.lf_classes.specs.views.TextSets.{with_text};
ghost use Rattle.lf_deps.specs.views.Index.{makers_at, makers_of};
ghost use Rattle.lf_deps.specs.views.Makers.{with_maker};
ghost use Rattle.lf_deps.specs.views.Sources.{IsSourcesOf};

use crate::selecting::selectors;
use lf_ast::Rule;
use lf_base::{Memory, Seq, Text};
use lf_classes::TextSet;
use lf_graph::Buckets;
use std::alloc::Global;
use std::marker::Model;

/// What each rule selects, and which rules record each name. Where a name stands is looked up in a map.
///
/// Who asks of all rules what they read makes it once.
#[derive(Drop)]
pub struct Sources {
    pub(crate) selected: Vec<Seq<Option<Text>>>,
    pub(crate) names: TextSet,
    pub(crate) makers: Buckets,
}

impl Model for Sources {
    ghost use Rattle.lf_deps.specs.views.Sources.{Sources};

    ghost Value = { Sources };

    ghost view = { λ s. record { selected = s.selected.items; names = s.names; makers = s.makers } };
}

impl Sources {
    /// Those of rules. One pass over the rules.
    pub fn of(alloc: Global, rules: &Seq<Rule>) -> Result<Sources, Memory>
        ensures { IfOk result (IsSourcesOf (rule_trees rules.now)) }
    {
        let selected = Vec::with_capacity(alloc, rules.len())?;
        let mut sources = Sources {
            selected,
            names: TextSet::new(alloc),
            makers: Buckets::new(alloc),
        };
        for k in 0..rules.len() {
            sources.add(alloc, k, rules.get(k))?;
        }
        Ok(sources)
    }

    /// How many rules there are.
    pub fn rule_count(&self) -> usize
        ensures { result ≡ length self.now.selected }
    {
        self.selected.len()
    }

    /// What the rule of a number selects.
    pub fn selected_by(&self, number: usize) -> &[Option<Text>]
        requires { number < length self.now.selected }
        ensures { result.now ≡ slice_index_or self.now.selected number [] }
    {
        let selected = &self.selected[number];
        selected.as_slice()
    }

    /// The recorded names, each once.
    pub fn recorded(&self) -> &TextSet
        ensures { result.now ≡ self.now.names }
    {
        &self.names
    }

    /// The numbers of the rules that record a name, in ascending order.
    pub fn makers_of(&self, name: &str) -> &[usize]
        ensures { result.now ≡ makers_of self.now name.now }
    {
        self.makers_at(self.names.place(name))
    }

    /// The numbers of the rules that record the name at a place.
    pub fn makers_at(&self, place: usize) -> &[usize]
        ensures { result.now ≡ makers_at self.now place }
    {
        self.makers.at(place)
    }

    /// Adds the rule that comes behind those of a count.
    fn add(&mut self, alloc: Global, count: usize, rule: &Rule) -> Result<(), Memory>
        requires full { length self.old.makers ≡ length self.old.names }
        ensures { OnOk result ((rules : List RuleTree) → length rules ≡ count → IsSourcesOf rules self.old → IsSourcesOf (rules ++ rule_tree rule.now ∷ []) self.new) }
    {
        let selected = selectors(alloc, &rule.expr)?;
        self.selected.push(selected)?;
        list_rule(alloc, &mut self.names, &mut self.makers, rule, count)
    }
}

/// Puts the number of a rule behind those of the rules that record its name. An alert records none.
fn list_rule(
    alloc: Global,
    names: &mut TextSet,
    makers: &mut Buckets,
    rule: &Rule,
    number: usize,
) -> Result<(), Memory>
    requires { length makers.old ≡ length names.old }
    ensures names { OnOk result (names.new ≡ cond rule.now.alert names.old (with_text names.old rule.now.name)) }
    ensures makers { OnOk result (makers.new ≡ cond rule.now.alert makers.old (with_maker names.old makers.old rule.now.name number)) }
{
    if rule.alert {
        return Ok(());
    }
    list(alloc, names, makers, rule.name.as_str(), number)
}

/// Puts the number of a rule behind those of a name.
fn list(
    alloc: Global,
    names: &mut TextSet,
    makers: &mut Buckets,
    name: &str,
    number: usize,
) -> Result<(), Memory>
    requires { length makers.old ≡ length names.old }
    ensures names { OnOk result (names.new ≡ with_text names.old name.now) }
    ensures makers { OnOk result (makers.new ≡ with_maker names.old makers.old name.now number) }
{
    let place = names.add(alloc, name)?;
    makers.make_room(alloc, place)?;
    makers.push(place, number)
}
