//! Which selectors read a rule that is chosen.
ghost use Rattle.std.specs.Prelude.{◌≡◌, ◌&&◌, length, not, IfOk};
ghost use Rattle.lf_ast.specs.Rules.{rule_trees};
ghost use Rattle.lf_forks.specs.views.NameMarks.{Marks};
ghost use Rattle.lf_open.specs.views.Marks.{AreMarks, place_if};

use lf_ast::Rule;
use lf_base::{Memory, Seq};
use lf_forks::NameMarks;
use std::alloc::Global;

/// The names of the recording rules, of which those of chosen rules are marked.
pub(crate) fn marks_of(
    alloc: Global,
    rules: &Seq<Rule>,
    chosen: &[bool],
) -> Result<NameMarks, Memory>
    requires { length chosen.now ≡ length rules.now }
    ensures { IfOk result (AreMarks (rule_trees rules.now) chosen.now) }
{
    let mut marks = NameMarks::none(alloc, rules)?;
    for k in 0..rules.len() {
        mark_if(chosen[k], rules.get(k), &mut marks);
    }
    Ok(marks)
}

/// Marks the name of a rule, if it records one and is chosen.
fn mark_if(chosen: bool, rule: &Rule, marks: &mut NameMarks)
    ensures { Marks (place_if (chosen && not rule.now.alert) marks.old.names rule.now.name) marks.old marks.new }
{
    if chosen && !rule.alert {
        marks.mark(rule.name.as_str());
    }
}
