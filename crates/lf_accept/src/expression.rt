//! The expression of a rule.
ghost use Rattle.std.specs.Prelude.{◌≡◌, ◌≤◌, ℕ, false, IfOk, OnOk};
ghost use Rattle.std.specs.List.Sorted.{IsNonDecreasingBy};
ghost use Rattle.lf_base.specs.Answers.{Found, Refused, RefusedIn};
ghost use Rattle.lf_ast.specs.Inside.{Inside};
ghost use Rattle.lf_ast.specs.Tree.{tree};
ghost use Rattle.lf_lex.specs.Tokens.{LieIn};
ghost use Rattle.lf_scalar.specs.Scalars.{value};
ghost use Rattle.lf_accept.specs.Accepted.{BreaksExpr, IsExpr, IsJudged};
ghost use Rattle.lf_accept.specs.Allowance.{TakesAllowance, count_in};
ghost use Rattle.lf_accept.specs.Sizes.{has_large_pattern};
ghost use Rattle.lf_accept.specs.Taken.{taken_at};
ghost use Rattle.lf_accept.specs.views.Checked.{AreJudged, BreakJudged, BreaksJudged, judged_taken, read_taken};

use crate::allowance::PatternAllowance;
use crate::patterns::patterns_of;
use crate::sizes::is_some_too_large;
use lf_ast::{Expr, type_of};
use lf_base::{Refusal, Seq};
use lf_classes::{ReadPatterns, check_patterns_by};
use lf_lex::{Token, lex};
use lf_parse::parse;
use lf_scalar::Scalar;
use std::alloc::Global;

/// The expression that the text of a scalar is, of which the types were judged, and then the patterns and selectors. Its spans are of the file.
///
/// What is refused is the first breach of its tokens, else of its depth and its syntax, else of its types, else of its patterns and selectors.
pub fn read_expr(
    alloc: Global,
    allowance: &mut PatternAllowance,
    known: &mut ReadPatterns,
    scalar: &Scalar,
) -> Result<Expr, Refusal>
    ensures found { Found tree (IsExpr (value scalar.now)) result }
    ensures refused { Refused (BreaksExpr (value scalar.now)) result }
    // Where the scalar ends in a file of n bytes, what is refused lies there.
    ensures refused_inside { (n : ℕ) → scalar.now.span.end ≤ n → RefusedIn n result }
    ensures taken { IfOk result (λ expr. TakesAllowance (count_in (tree expr)) allowance.old allowance.new) }
    // So too where it is refused.
    ensures spent { Refused (λ f. (breach : BreaksExpr (value scalar.now) f) × TakesAllowance (taken_at breach) allowance.old allowance.new) result }
{
    let tokens = lex(alloc, &scalar.text, &scalar.from)?;
    let end = scalar.from.as_slice()[scalar.text.len()];
    read_tokens(alloc, allowance, known, &tokens, end)
}

/// The expression that tokens are, which was judged. `end` is the offset of the text's end.
fn read_tokens(
    alloc: Global,
    allowance: &mut PatternAllowance,
    known: &mut ReadPatterns,
    tokens: &Seq<Token>,
    end: u32,
) -> Result<Expr, Refusal>
    ensures found { Found tree (AreJudged tokens.now) result }
    ensures refused { Refused (BreakJudged tokens.now end) result }
    ensures refused_inside { (n : ℕ) → LieIn n tokens.now → IsNonDecreasingBy (λ token. token.span.start) tokens.now → end ≤ n → RefusedIn n result }
    ensures taken { IfOk result (λ expr. TakesAllowance (count_in (tree expr)) allowance.old allowance.new) }
    ensures spent { Refused (λ f. (breach : BreakJudged tokens.now end f) × TakesAllowance (read_taken tokens.now end f breach) allowance.old allowance.new) result }
{
    let expr = parse(alloc, tokens, end)?;
    match judge(alloc, allowance, known, &expr) {
        Ok(()) => Ok(expr),
        Err(refusal) => Err(refusal),
    }
}

/// Judges an expression: its types, and then its patterns and selectors. Where a pattern is too large to be read, or the patterns count more than is left of the file's
/// allowance, memory is wanting, and none of them is read.
fn judge(
    alloc: Global,
    allowance: &mut PatternAllowance,
    known: &mut ReadPatterns,
    expr: &Expr,
) -> Result<(), Refusal>
    ensures found { OnOk result (IsJudged (tree expr.now)) }
    ensures refused { Refused (BreaksJudged (tree expr.now)) result }
    ensures refused_inside { (n : ℕ) → Inside n (tree expr.now) → RefusedIn n result }
    // No pattern is too large to be read.
    ensures readable { OnOk result (has_large_pattern (tree expr.now) ≡ false) }
    // What the patterns count was left, and is taken.
    ensures taken { OnOk result (TakesAllowance (count_in (tree expr.now)) allowance.old allowance.new) }
    ensures spent { Refused (λ f. (breach : BreaksJudged (tree expr.now) f) × TakesAllowance (judged_taken (tree expr.now) f breach) allowance.old allowance.new) result }
{
    let _ = type_of(alloc, expr)?;
    let patterns = patterns_of(alloc, expr)?;
    if is_some_too_large(alloc, patterns.as_slice())? {
        return Err(Refusal::Memory);
    }
    allowance.take_each(alloc, patterns.as_slice())?;
    known.learn(alloc, patterns.as_slice())?;
    check_patterns_by(alloc, known, expr)
}
