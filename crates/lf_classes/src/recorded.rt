//! The names that rules record.
ghost use Rattle.std.specs.Prelude.{◌≡◌, ◌≤◌, cond, length, IfOk, OnErr, OnOk};
ghost use Rattle.lf_ast.specs.Rules.{rule_trees};
ghost use Rattle.lf_semantics.specs.Environments.{recorded_names};
ghost use Rattle.lf_classes.specs.views.TextSets.{with_text};

use crate::text_set::TextSet;
use lf_ast::Rule;
use lf_base::Memory;
use std::alloc::Global;

/// The names that rules record, each once, in the order in which they come first. An alert records none.
pub fn recorded_names(alloc: Global, rules: &[Rule]) -> Result<TextSet, Memory>
    ensures names { IfOk result (λ names. names ≡ recorded_names (rule_trees rules.now)) }
    ensures few { IfOk result (λ names. length names ≤ length rules.now) }
{
    let mut names = TextSet::new(alloc);
    for rule in rules {
        names.add_recorded(alloc, rule)?;
    }
    Ok(names)
}

impl TextSet {
    /// Puts the name that a rule records behind the others, unless it is there.
    pub fn add_recorded(&mut self, alloc: Global, rule: &Rule) -> Result<(), Memory>
        ensures ok { OnOk result (self.new ≡ cond rule.now.alert self.old (with_text self.old rule.now.name)) }
        ensures err { OnErr result (self.new ≡ self.old) }
    {
        if rule.alert {
            return Ok(());
        }
        let _place = self.add(alloc, rule.name.as_str())?;
        Ok(())
    }
}
