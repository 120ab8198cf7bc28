//! Where the names of rules stand in their files.
//!
//! The places of a file's rules are looked up in the order of the file, so that its bytes are gone through once.
ghost use Rattle.std.specs.Prelude.{List, IfOk};
ghost use Rattle.lf_ast.specs.Rules.{rule_trees};
ghost use Rattle.lf_checks.specs.Files.{File, StandIn};
ghost use Rattle.lf_judge.specs.Judged.{files_of};
ghost use Rattle.lf_judge.specs.views.NamePositions.{AreNamePositions, IsPositionIn};

use crate::Source;
use lf_ast::Rule;
use lf_base::{Memory, Seq};
use lf_report::{Position, position_from};
use std::alloc::Global;

/// The positions of the names of rules, each at the number of its rule. From one name to the next of the same file only the bytes between are gone through.
pub fn name_positions(
    alloc: Global,
    files: &Seq<Source>,
    rules: &Seq<Rule>,
) -> Result<Vec<Position>, Memory>
    requires { StandIn (files_of files.now) (rule_trees rules.now) }
    ensures { IfOk result (λ positions. AreNamePositions (files_of files.now) (rule_trees rules.now) positions.items) }
{
    let mut positions = Vec::new(alloc);
    let mut file = 0;
    let mut at = Position::first();
    for rule in rules.as_slice() {
        at = kept_in(at, file, rule.file);
        file = rule.file;
        at = position_from(
            files.get(file as usize).bytes.as_slice(),
            at,
            rule.name_span.start as usize,
        );
        positions.push(at)?;
    }
    Ok(positions)
}

/// A position of the file with one number, as one of the file with another number: the same, or else the first.
fn kept_in(at: Position, file: u32, other: u32) -> Position
    ensures { (files : List File) → IsPositionIn files file at → IsPositionIn files other result }
{
    if other == file { at } else { Position::first() }
}
