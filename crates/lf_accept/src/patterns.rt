//! The patterns that stand in an expression.
ghost use Rattle.std.specs.Prelude.{◌≡◌, ◌++◌, IfOk, OnOk};
ghost use Rattle.std.specs.List.{flat_map};
ghost use Rattle.lf_ast.specs.Tree.{tree};
ghost use Rattle.lf_accept.specs.Patterns.{argument_patterns, pattern_of, patterns_here, patterns_in, texts_at};

use lf_ast::walk::nodes_of;
use lf_ast::{Expr, Function, LabelEffect, MatchOp, Matcher, text_at};
use lf_base::Memory;
use std::alloc::Global;

/// The patterns of an expression: those behind `=~` and `!~`, and that of each `label_replace`.
pub fn patterns_of<'a>(alloc: Global, expr: &'a Expr) -> Result<Vec<&'a str>, Memory>
    ensures { IfOk result (λ found. texts_at found.items ≡ patterns_in (tree expr.now)) }
{
    let nodes = nodes_of(alloc, expr)?;
    let mut found = Vec::new(alloc);
    for node in nodes.as_slice() {
        push_patterns(node, &mut found)?;
    }
    Ok(found)
}

/// Puts those of an expression without its parts behind others.
fn push_patterns<'a>(node: &'a Expr, found: &mut Vec<&'a str>) -> Result<(), Memory>
    ensures { OnOk result (texts_at found.new.items ≡ texts_at found.old.items ++ patterns_here (tree node.now)) }
{
    match node {
        Expr::Selector { matchers, .. } => push_matched(matchers.as_slice(), found),
        Expr::Call { args, .. } => match Function::called_by(node) {
            Some(function) => push_argument(function.labels, text_at(args.as_slice(), 4), found),
            None => Ok(()),
        },
        _ => Ok(()),
    }
}

/// Puts those of matchers behind others.
fn push_matched<'a>(matchers: &'a [Matcher], found: &mut Vec<&'a str>) -> Result<(), Memory>
    ensures { OnOk result (texts_at found.new.items ≡ texts_at found.old.items ++ flat_map pattern_of matchers.now) }
{
    for matcher in matchers {
        push_value(matcher, found)?;
    }
    Ok(())
}

/// Puts the value of a matcher behind patterns if it is one.
fn push_value<'a>(matcher: &'a Matcher, found: &mut Vec<&'a str>) -> Result<(), Memory>
    ensures { OnOk result (texts_at found.new.items ≡ texts_at found.old.items ++ pattern_of matcher.now) }
{
    match matcher.op {
        MatchOp::Equal | MatchOp::NotEqual => Ok(()),
        MatchOp::Matches | MatchOp::NotMatches => {
            found.push(matcher.value.as_str())?;
            Ok(())
        }
    }
}

/// Puts the fifth argument of a function behind patterns, which is one in `label_replace` alone.
fn push_argument<'a>(
    effect: LabelEffect,
    argument: &'a str,
    found: &mut Vec<&'a str>,
) -> Result<(), Memory>
    ensures { OnOk result (texts_at found.new.items ≡ texts_at found.old.items ++ argument_patterns effect argument.now) }
{
    match effect {
        LabelEffect::LabelReplace => {
            found.push(argument)?;
            Ok(())
        }
        _ => Ok(()),
    }
}
