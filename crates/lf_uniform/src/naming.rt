//! The names of the series of a uniform world.
ghost use Rattle.std.specs.Prelude.{◌≡◌, ◌<◌, [], ℕ, IfOk, OnOk, length};
ghost use Rattle.std.specs.List.{Contains};
ghost use Rattle.lf_ast.specs.Rules.{rule_trees};
ghost use Rattle.lf_deps.specs.views.Selecting.{is_scalar_call};
ghost use Rattle.lf_deps.specs.views.Sources.{IsSourcesOf};
ghost use Rattle.lf_trials.specs.Selected.{selected_by};
ghost use Rattle.lf_trials.specs.Uniform.{series_names};
ghost use Rattle.lf_uniform.specs.views.Naming.{said_all, said_by, said_one, unsaid_by, unsaid_one, with_each};

use crate::setting::Setting;
use lf_ast::walk::{Parts, Visitor, visit};
use lf_ast::{Expr, Matcher, selected_name};
use lf_base::{Memory, Text};
use lf_classes::TextSet;
use lf_deps::{Sources, is_scalar_call};
use std::alloc::Global;

/// The names of the series for the selectors of some rules, each once: the scraped names that are said, and then those for selectors that say none.
pub fn series_names(alloc: Global, setting: &Setting, numbers: &[u32]) -> Result<TextSet, Memory>
    requires { (k : ℕ) → Contains numbers.now k → k < length setting.now.rules }
    ensures { IfOk result (λ names. names ≡ series_names setting.now.universe (rule_trees setting.now.rules) (selected_by (rule_trees setting.now.rules) numbers.now)) }
{
    let naming = said(alloc, setting, setting.sources(), numbers)?;
    with_unsaid(alloc, naming, numbers)
}

/// The scraped names that the selectors of some rules say.
fn said<'a>(
    alloc: Global,
    setting: &'a Setting<'a>,
    sources: &Sources,
    numbers: &[u32],
) -> Result<NameCollector<'a>, Memory>
    requires sources { IsSourcesOf (rule_trees setting.now.rules) sources.now }
    requires numbers { (k : ℕ) → Contains numbers.now k → k < length setting.now.rules }
    ensures names { IfOk result (λ naming. naming.names ≡ with_each [] (said_all (rule_trees setting.now.rules) (selected_by (rule_trees setting.now.rules) numbers.now))) }
    ensures setting { IfOk result (λ naming. naming.setting.now ≡ setting.now) }
{
    let mut naming = NameCollector {
        setting,
        names: TextSet::new(alloc),
    };
    for number in numbers {
        naming.say(alloc, sources.selected_by(*number as usize))?;
    }
    Ok(naming)
}

/// Names, and behind them those for the selectors of some rules that say none.
fn with_unsaid(alloc: Global, mut naming: NameCollector, numbers: &[u32]) -> Result<TextSet, Memory>
    requires { (k : ℕ) → Contains numbers.now k → k < length naming.setting.now.rules }
    ensures { IfOk result (λ names. names ≡ with_each naming.entry.names (unsaid_by naming.entry.setting.now.universe (rule_trees naming.entry.setting.now.rules) (selected_by (rule_trees naming.entry.setting.now.rules) numbers.now))) }
{
    for number in numbers {
        let rule = naming.setting.rules().get(*number as usize);
        visit(alloc, &mut naming, &rule.expr)?;
    }
    Ok(naming.names)
}

/// Puts the names of series behind each other, each once.
#[derive(Drop)]
struct NameCollector<'a> {
    setting: &'a Setting<'a>,
    names: TextSet,
}

impl<'a> NameCollector<'a> {
    /// Puts the scraped names that selectors say.
    fn say(&mut self, alloc: Global, selected: &[Option<Text>]) -> Result<(), Memory>
        ensures names { OnOk result (self.new.names ≡ with_each self.old.names (said_by (rule_trees self.old.setting.now.rules) selected.now)) }
        ensures setting { OnOk result (self.new.setting ≡ self.old.setting) }
    {
        for name in selected {
            self.say_one(alloc, name)?;
        }
        Ok(())
    }

    /// Puts the name that a selector says, if it is a scraped one.
    fn say_one(&mut self, alloc: Global, name: &Option<Text>) -> Result<(), Memory>
        ensures names { OnOk result (self.new.names ≡ with_each self.old.names (said_one (rule_trees self.old.setting.now.rules) name.now)) }
        ensures setting { OnOk result (self.new.setting ≡ self.old.setting) }
    {
        match name {
            Some(name) => {
                if self.setting.is_scraped_name(name.as_str()) {
                    let _place = self.names.add(alloc, name.as_str())?;
                }
                Ok(())
            }
            None => Ok(()),
        }
    }

    /// Puts the name for a selector that says none.
    fn name(
        &mut self,
        alloc: Global,
        name: &Option<Text>,
        matchers: &[Matcher],
    ) -> Result<(), Memory>
        ensures names { OnOk result (self.new.names ≡ with_each self.old.names (unsaid_one self.old.setting.now.universe (rule_trees self.old.setting.now.rules) name.now matchers.now)) }
        ensures setting { OnOk result (self.new.setting ≡ self.old.setting) }
    {
        if selected_name(name, matchers).is_some() {
            return Ok(());
        }
        match self.setting.name_for(alloc, matchers)? {
            Some(name) => {
                let _place = self.names.add(alloc, name.as_str())?;
                Ok(())
            }
            None => Ok(()),
        }
    }
}

impl<'a> Visitor for NameCollector<'a> {
    type Note = ();

    ghost use Rattle.lf_ast.specs.Rules.{rule_trees};
    ghost use Rattle.lf_deps.specs.views.Selecting.{parts_read};
    ghost use Rattle.lf_uniform.specs.views.Naming.{own_unsaid, unsaid_in, with_each};
    ghost use Rattle.lf_uniform.specs.views.NamingVisits.{visits};

    ghost visited = { λ s e. record s { names = with_each s.names (unsaid_in s.setting.now.universe (rule_trees s.setting.now.rules) e) } };

    ghost before = { λ s e. record s { names = with_each s.names (own_unsaid s.setting.now.universe (rule_trees s.setting.now.rules) e) } };

    ghost between = { λ s e. s };

    ghost behind = { λ s e. s };

    ghost needed = { λ e. parts_read e };

    ghost notes = { λ e note. Unit {0} };

    fn enter(&self, expr: &Expr) -> (Parts, ()) {
        if is_scalar_call(expr) {
            (Parts::Nothing, ())
        } else {
            (Parts::All, ())
        }
    }

    fn before(&mut self, alloc: Global, expr: &Expr, _note: &()) -> Result<(), Memory> {
        match expr {
            Expr::Selector { name, matchers, .. } => self.name(alloc, name, matchers.as_slice()),
            _ => Ok(()),
        }
    }

    fn between(&mut self, _alloc: Global, _expr: &Expr) -> Result<(), Memory> {
        Ok(())
    }

    fn behind(&mut self, _alloc: Global, _expr: &Expr, _note: &()) -> Result<(), Memory> {
        Ok(())
    }

    ghost steps = { visits };
}
