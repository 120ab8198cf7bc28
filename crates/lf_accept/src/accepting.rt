//! The rules of a file, or its refusal.
ghost use Rattle.std.specs.Prelude.{◌≡◌, ◌≤◌, ◌^◌, ℕ, length, List, IfOk};
ghost use Rattle.std.specs.List.{sum_by};
ghost use Rattle.lf_base.specs.Answers.{Breach, Found, OneAnswer, Only, Refused, RefusedIn};
ghost use Rattle.lf_ast.specs.Rules.{rule_trees};
ghost use Rattle.lf_accept.specs.Accepted.{IsAccepted, RefusesFile};
ghost use Rattle.lf_accept.specs.Allowance.{TakesAllowance, count_of_rule, most};
ghost use Rattle.lf_accept.specs.Taken.{FileTakes, IfTold};

use crate::allowance::PatternAllowance;
use crate::rules::rules_of;
use lf_ast::Rule;
use lf_base::{Refusal, Seq};
use lf_classes::ReadPatterns;
use lf_rules::rules_in_tree;
use lf_yaml::read_tree;
use std::alloc::Global;

/// The rules of a file, in its order. Each has the number of the file, counted from 0, and its spans are of the file, in bytes from 0.
///
/// A file that breaks a rule is refused with the first breach: of its characters and its tree; else of the rules that the tree says; else of the first rule whose
/// expression has one, by its tokens, its depth and syntax, its types, and its patterns and selectors.
pub fn accept(alloc: Global, bytes: &[u8], file: u32) -> Result<Seq<Rule>, Refusal>
    requires room { length bytes.now ≤ 2 ^ 31 }
    // What is answered are the rules of the file.
    ensures found { Found rule_trees (IsAccepted bytes.now file) result }
    // They are answered, unless memory runs out; so no file has two lists of rules.
    ensures only { Only rule_trees (IsAccepted bytes.now file) result }
    // What is refused is why the file is.
    ensures refused { Refused (RefusesFile bytes.now) result }
    // It is refused, unless memory runs out; so no file has two refusals, nor one and rules.
    ensures breach { Breach rule_trees (RefusesFile bytes.now) result }
    // The span of a refusal lies in the file.
    ensures refused_inside { RefusedIn (length bytes.now) result }
{
    let Acceptance { answer, taken: _ } = accept_counted(alloc, bytes, file);
    answer
}

/// What a file was answered, and what was taken of its allowance for that.
#[derive(Drop)]
pub struct Acceptance {
    /// The rules of the file, or its refusal.
    pub answer: Result<Seq<Rule>, Refusal>,
    /// What the patterns count that were read.
    pub taken: u64,
}

/// The same as `accept`, and what the patterns count that are read for it.
pub fn accept_counted(alloc: Global, bytes: &[u8], file: u32) -> Acceptance
    requires room { length bytes.now ≤ 2 ^ 31 }
    ensures found { Found rule_trees (IsAccepted bytes.now file) result.answer }
    ensures refused { Refused (RefusesFile bytes.now) result.answer }
    ensures refused_inside { RefusedIn (length bytes.now) result.answer }
    // What is taken goes by the file alone.
    ensures taken { IfTold result.answer (FileTakes bytes.now result.taken) }
    // Of an accepted file it is what its patterns count.
    ensures counted { IfOk result.answer (λ rules. result.taken ≡ sum_by count_of_rule (rule_trees rules)) }
    // It is no more than those of a file may count.
    ensures allowed { result.taken ≤ most }
{
    let mut allowance = PatternAllowance::of_file();
    let answer = read(alloc, &mut allowance, bytes, file);
    let taken = allowance.taken();
    Acceptance { answer, taken }
}

/// The rules of a file, for which is taken of this allowance.
fn read(
    alloc: Global,
    allowance: &mut PatternAllowance,
    bytes: &[u8],
    file: u32,
) -> Result<Seq<Rule>, Refusal>
    requires room { length bytes.now ≤ 2 ^ 31 }
    ensures found { Found rule_trees (IsAccepted bytes.now file) result }
    ensures refused { Refused (RefusesFile bytes.now) result }
    ensures refused_inside { RefusedIn (length bytes.now) result }
    ensures taken { IfTold result ((n : ℕ) × FileTakes bytes.now n × TakesAllowance n allowance.old allowance.new) }
    ensures counted { IfOk result (λ rules. TakesAllowance (sum_by count_of_rule (rule_trees rules)) allowance.old allowance.new) }
{
    // The rules are read where they stand in the tree, without copies.
    let tree = read_tree(alloc, bytes)?;
    let sources = rules_in_tree(alloc, &tree)?;
    let mut known = ReadPatterns::new(alloc);
    rules_of(alloc, allowance, &mut known, sources.as_slice(), file)
}

/// What is taken of a file of any bytes is one count.
pub fn one_count()
    ensures { (bytes : List ℕ) → (n : ℕ) × FileTakes bytes n × ((m : ℕ) → FileTakes bytes m → m ≡ n) }
{}

/// A file of any bytes has one list of rules or one refusal, and never both.
pub fn one_file()
    ensures { (bytes : List ℕ) (file : ℕ) → OneAnswer (IsAccepted bytes file) (RefusesFile bytes) }
{}
