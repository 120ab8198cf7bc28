//! The line of rules in which each comes behind those that it reads.
ghost use Rattle.std.specs.Prelude.{◌≡◌, ◌<◌, ◌↔◌, ◌∷◌, false, ◌++◌, [], ℕ, List, cond, length, slice_get, IfOk, IsTrue, OnOk, Option, Some};
ghost use Rattle.std.specs.List.{Contains};
ghost use Rattle.lf_ast.specs.Rules.{RuleTree, rule_trees};
ghost use Rattle.lf_deps.specs.views.Sources.{IsSourcesOf};
ghost use Rattle.lf_uniform.specs.views.Lines.{IsLineOf, IsRound, first_of, is_in, is_no_wait, is_ready};

use lf_ast::Rule;
use lf_base::{Memory, Seq, Text};
use lf_classes::TextSet;
use lf_deps::Sources;
use std::alloc::Global;
use std::marker::Model;

/// Rules in line, each the first of its name: the recorded names that its selectors say come before it. Where a name stands is looked up in a map.
#[derive(Drop)]
pub struct Line {
    numbers: Vec<u32>,
    names: TextSet,
}

impl Model for Line {
    ghost use Rattle.lf_uniform.specs.views.Lines.{Line};

    ghost Value = { Line };

    ghost view = { λ line. record { numbers = line.numbers.items; names = line.names } };
}

impl Line {
    /// The line of the rules of some numbers. Those that read a cyclic name aren't in line.
    ///
    /// It goes over the numbers in rounds, forwards and backwards in turn, and ends with a round in which no rule is ready that wasn't. So rules that stand behind those that
    /// they read need two, and rules that stand before them three.
    pub fn of(
        alloc: Global,
        rules: &Seq<Rule>,
        sources: &Sources,
        numbers: &[u32],
    ) -> Result<Line, Memory>
        requires sources { IsSourcesOf (rule_trees rules.now) sources.now }
        requires numbers { (k : ℕ) → Contains numbers.now k → k < length rules.now }
        ensures { IfOk result (IsLineOf (rule_trees rules.now) numbers.now) }
    {
        let mut line = Line {
            numbers: Vec::new(alloc),
            names: TextSet::new(alloc),
        };
        let mut left = Vec::from_slice(alloc, numbers)?;
        loop {
            let mut later = line.round(alloc, rules, sources, left.as_slice())?;
            if later.len() == left.len() {
                return Ok(line);
            }
            later.reverse();
            left = later;
        }
    }

    /// The numbers of the rules in line.
    pub fn numbers(&self) -> &[u32]
        ensures { result.now ≡ self.now.numbers }
    {
        self.numbers.as_slice()
    }

    /// The names that they record.
    pub fn names(&self) -> &TextSet
        ensures { result.now ≡ self.now.names }
    {
        &self.names
    }

    /// Puts those of some rules in line that are ready, and tells the others.
    fn round(
        &mut self,
        alloc: Global,
        rules: &Seq<Rule>,
        sources: &Sources,
        numbers: &[u32],
    ) -> Result<Vec<u32>, Memory>
        requires sources { IsSourcesOf (rule_trees rules.now) sources.now }
        requires numbers { (k : ℕ) → Contains numbers.now k → k < length rules.now }
        ensures { IfOk result (λ later. IsRound (rule_trees rules.now) self.old numbers.now self.new later.items) }
    {
        let mut later = Vec::new(alloc);
        for number in numbers {
            let waits = self.put(alloc, rules, sources, *number)?;
            keep_if(waits, *number, &mut later)?;
        }
        Ok(later)
    }

    /// Puts a rule in line if it is the first of its name and ready, and says whether it waits.
    fn put(
        &mut self,
        alloc: Global,
        rules: &Seq<Rule>,
        sources: &Sources,
        number: u32,
    ) -> Result<bool, Memory>
        requires sources { IsSourcesOf (rule_trees rules.now) sources.now }
        requires number { number < length rules.now }
        ensures { IfOk result (λ waits. IsRound (rule_trees rules.now) self.old (number ∷ []) self.new (cond waits (number ∷ []) [])) }
    {
        let place = number as usize;
        let name = &rules.get(place).name;
        if self.has(name) || !is_first(sources, place, name.as_str()) {
            return Ok(false);
        }
        if !self.is_ready(sources.recorded(), sources.selected_by(place)) {
            return Ok(true);
        }
        self.push(alloc, number, name)?;
        Ok(false)
    }

    /// Whether a name is in line.
    fn has(&self, name: &Text) -> bool
        ensures { result ≡ is_in self.now.names name.now }
    {
        self.names.place(name.as_str()) < self.names.len()
    }

    /// Whether each recorded name that these selectors say is in line.
    fn is_ready(&self, recorded: &TextSet, selected: &[Option<Text>]) -> bool
        ensures { result ≡ is_ready recorded.now self.now.names selected.now }
    {
        selected.iter().all(|name| self.is_no_wait(recorded, name))
    }

    /// Whether a selector doesn't wait: it says no name, or one that isn't recorded or is in line.
    fn is_no_wait(&self, recorded: &TextSet, name: &Option<Text>) -> bool
        ensures { result ≡ is_no_wait recorded.now self.now.names name.now }
    {
        match name {
            Some(name) => { !(recorded.place(name.as_str()) < recorded.len()) || self.has(name) }
            None => true,
        }
    }

    /// Puts a rule in line, behind the others.
    fn push(&mut self, alloc: Global, number: u32, name: &Text) -> Result<(), Memory>
        requires { is_in self.old.names name.now ≡ false }
        ensures { OnOk result (self.new ≡ record { numbers = self.old.numbers ++ number ∷ []; names = self.old.names ++ name.now ∷ [] }) }
    {
        let _place = self.names.add(alloc, name.as_str())?;
        self.numbers.push(number)?;
        Ok(())
    }
}

/// Whether the rule of a number, which has this name, is the first that records it.
fn is_first(sources: &Sources, number: usize, name: &str) -> bool
    ensures { (rules : List RuleTree) → IsSourcesOf rules sources.now → (r : RuleTree) → slice_get rules number ≡ Some r → r.name ≡ name.now → IsTrue result ↔ (first_of rules r.name ≡ Some (number, r)) }
{
    sources.makers_of(name).first() == Some(&number)
}

/// Puts a number behind others, if it is kept.
fn keep_if(kept: bool, number: u32, numbers: &mut Vec<u32>) -> Result<(), Memory>
    ensures { OnOk result (numbers.new.items ≡ numbers.old.items ++ cond kept (number ∷ []) []) }
{
    if kept {
        numbers.push(number)?;
    }
    Ok(())
}
