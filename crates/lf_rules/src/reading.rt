//! The rules of a file, or the first breach of what a rule file may say.
ghost use Rattle.std.specs.Prelude.{ℕ, ◌<◌, ◌^◌, map, IfOk, IsErr};
ghost use Rattle.lf_base.specs.declared.fault.Fault.{Fault};
ghost use Rattle.lf_base.specs.Answers.{Found, Only, Refused, Breach, RefusedIn, AnswersAs};
ghost use Rattle.lf_yaml.specs.Tree.{tree};
ghost use Rattle.lf_yaml.specs.Insides.{Inside};
ghost use Rattle.lf_rules.specs.Breaches.{Breaks, FirstBreak};
ghost use Rattle.lf_rules.specs.reading.Files as reading;
ghost use Rattle.lf_rules.specs.Rules.{IsRules};
ghost use Rattle.lf_rules.specs.Sources.{source, source_in, SourcesInside};

use crate::building::all_sources;
use crate::copying::rules_of;
use crate::judging_groups::judge_file;
use crate::source::{RuleInTree, RuleSource};
use lf_base::{Fault, Refusal, Seq};
use lf_yaml::Node;
use std::alloc::Global;

/// Reads the rules of a file's tree, in the order of its groups and of the rules in each, as Prometheus' documentation on recording and alerting rules has them.
///
/// Of all that breaks a file the refusal is the one that starts first, of those that start at one byte the first of this list, and of one kind the shortest:
/// - `WrongKind`: a node of another kind than is wanted; the span is the node.
/// - `UnknownKey`: a key that a file, a group or a rule doesn't have; the span is the key.
/// - `MissingKey`: a mapping without a key that it needs; the span is the mapping's first character.
/// - `BothKinds`: a rule with `record` and `alert`; the span is the later key.
/// - `BadName`: a recorded name that is no metric name, a key of labels or annotations that is no label name, or a label `__name__`; the span is the scalar.
/// - `BadLimit`: a `limit` that isn't one to nine digits; the span is the scalar.
/// - `DoubleGroup`: a group with the name of one before it; the span is the later name.
/// - `NotForRecord`: a key that only alerts have, in a rule that records; the span is the key.
/// - `BadDuration`: a length of time that is neither a duration nor `0`; the span is the scalar.
pub fn read_rules(alloc: Global, file: &Node) -> Result<Seq<RuleSource>, Refusal>
    // What is answered are the rules that the tree says.
    ensures found { Found (map source) (IsRules (tree file.now)) result }
    // They are answered, unless memory runs out; so no tree says two lists of rules.
    ensures only { Only (map source) (IsRules (tree file.now)) result }
    // What is refused is the breach that is told.
    ensures refused { Refused (FirstBreak (tree file.now)) result }
    // It is refused, unless memory runs out; so there is one at most, and none where the tree says rules.
    ensures told { Breach (map source) (FirstBreak (tree file.now)) result }
    // A tree with a breach is refused, unless memory runs out.
    ensures breach { (fault : Fault) → Breaks (tree file.now) fault → IsErr result }
    // Where the tree lies in a file of n bytes, so do the scalars of the rules.
    ensures inside { (n : ℕ) → n < 2 ^ 32 → Inside n (tree file.now) → IfOk result (λ rules. SourcesInside n (map source rules)) }
    // So does the span of a refusal.
    ensures refused_inside { (n : ℕ) → n < 2 ^ 32 → Inside n (tree file.now) → RefusedIn n result }
{
    read(alloc, file)
}

/// The same rules as they stand in the tree, without copies.
pub fn rules_in_tree(alloc: Global, file: &Node) -> Result<Seq<RuleInTree<'_>>, Refusal>
    ensures found { Found (map source_in) (IsRules (tree file.now)) result }
    ensures only { Only (map source_in) (IsRules (tree file.now)) result }
    ensures refused { Refused (FirstBreak (tree file.now)) result }
    ensures told { Breach (map source_in) (FirstBreak (tree file.now)) result }
    ensures inside { (n : ℕ) → n < 2 ^ 32 → Inside n (tree file.now) → IfOk result (λ rules. SourcesInside n (map source_in rules)) }
    ensures refused_inside { (n : ℕ) → n < 2 ^ 32 → Inside n (tree file.now) → RefusedIn n result }
{
    read_in_tree(alloc, file)
}

/// Copies of the rules that are read in the tree.
fn read(alloc: Global, file: &Node) -> Result<Seq<RuleSource>, Refusal>
    ensures { AnswersAs (map source) result (reading.reading (tree file.now)) }
{
    let rules = read_in_tree(alloc, file)?;
    Ok(rules_of(alloc, rules.as_slice())?)
}

/// The same as `rules_in_tree`, by the way of reading.
fn read_in_tree(alloc: Global, file: &Node) -> Result<Seq<RuleInTree<'_>>, Refusal>
    ensures { AnswersAs (map source_in) result (reading.reading (tree file.now)) }
{
    let mut first = None;
    judge_file(&mut first, alloc, file)?;
    match first {
        Some(Fault { kind, span }) => Err(Refusal::At { kind, span }),
        None => Ok(all_sources(alloc, file)?),
    }
}
