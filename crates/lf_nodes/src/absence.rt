//! What an `absent` or `absent_over_time` looks for, and whether it is left open which sample it gives.
ghost use Rattle.std.specs.Prelude.{◌≡◌, ◌↔◌, ◌||◌, is_some, length, IsTrue, Some};
ghost use Rattle.std.specs.List.{filter};
ghost use Rattle.std.specs.Str.{bytes_eq};
ghost use Rattle.lf_ast.specs.Tree.{tree, trees};
ghost use Rattle.lf_semantics.specs.Parts.{sought_by, sought_in};
ghost use Rattle.lf_witness.specs.Strict.{IsOpenAbsent};
ghost use Rattle.lf_witness.specs.views.Absence.{has_two, is_twice};

use crate::labels::is_metric;
use lf_ast::{Expr, Matcher, Sight};
use std::marker::Model;

/// What an `absent` looks for.
#[derive(Drop)]
pub struct Sought<'a> {
    /// The matchers of its selector.
    pub matchers: &'a [Matcher],
    /// Whether the sample may also have no label.
    pub may_be_bare: bool,
}

impl<'a> Model for Sought<'a> {
    ghost use Rattle.lf_semantics.specs.Parts.{Sought};

    ghost Value = { Sought };

    ghost view = { λ s. record { matchers = s.matchers.now; may_be_bare = s.may_be_bare } };
}

/// What an `absent` of these arguments looks for, if its argument is a selector.
pub fn sought_in(args: &[Expr]) -> Option<Sought<'_>>
    ensures { result ≡ sought_in (trees args.entry.now) }
{
    match args.get(0) {
        Some(expr) => sought_by(expr),
        None => None,
    }
}

/// What an `absent` of one argument looks for. The sample may also have no label where the selector stands in parentheses or has an `@`.
fn sought_by(expr: &Expr) -> Option<Sought<'_>>
    ensures { result ≡ sought_by (tree expr.entry.now) }
{
    let mut inner = expr;
    let mut outside = false;
    loop {
        match inner {
            Expr::Selector {
                matchers,
                sight,
                ..
            } => {
                return Some(Sought {
                    matchers: matchers.as_slice(),
                    may_be_bare: may_be_bare(outside, sight),
                });
            }
            Expr::Paren { of, .. } => {
                inner = of;
                outside = true;
            }
            _ => return None,
        }
    }
}

/// Whether the sample may have no label, by what stands outside of the selector and by its `@`.
fn may_be_bare(outside: bool, sight: &Sight) -> bool
    ensures { result ≡ (outside || is_some sight.now.at) }
{
    outside || sight.at.is_some()
}

/// Whether it is left open which sample is given: it may have no label, or two matchers are on one label other than the metric name.
pub fn leaves_open(sought: &Sought<'_>) -> bool
    ensures { IsTrue result ↔ IsOpenAbsent (Some sought.now) }
{
    sought.may_be_bare || has_two(sought.matchers)
}

/// Whether two matchers are on one label other than the metric name.
fn has_two(matchers: &[Matcher]) -> bool
    ensures { result ≡ has_two matchers.now }
{
    matchers
        .iter()
        .any(|m| is_twice(matchers, m.label.as_str()))
}

/// Whether two matchers are on a label, which isn't the metric name.
fn is_twice(matchers: &[Matcher], label: &str) -> bool
    ensures { result ≡ is_twice matchers.now label.now }
{
    !is_metric(label) && count_on(matchers, label) > 1
}

/// How many matchers are on a label.
fn count_on(matchers: &[Matcher], label: &str) -> usize
    ensures { result ≡ length (filter (λ m. bytes_eq m.label label.now) matchers.now) }
{
    matchers
        .iter()
        .filter(|m| m.label.as_str() == label)
        .count()
}
