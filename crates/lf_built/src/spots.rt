//! Expressions with where they stand.

use lf_ast::Expr;

/// A part of a rule's expression, and where it stands: the number of the rule, and the place of the part among all parts of the expression in the order of the text, each
/// before its own.
#[derive(Clone, Copy, Drop)]
pub struct Spot<'a> {
    pub rule: usize,
    pub place: usize,
    pub expr: &'a Expr,
}
