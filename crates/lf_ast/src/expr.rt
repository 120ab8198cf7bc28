//! Expressions of PromQL, as Prometheus' documentation on querying has them.

ghost use Rattle.std.specs.Prelude.{◌≡◌, ◌≤◌, ◌+◌, ℕ, IsTrue, IsFalse};
ghost use Rattle.lf_ast.specs.views.Turning.{Within, weight};
ghost use Rattle.lf_ast.specs.declared.expr.Expr.{size-Expr};

use lf_base::{Seq, Span, Text};
use std::mem;

/// A binary operator.
#[derive(Clone, Copy, Drop, PartialEq, Eq, Debug)]
pub enum Op {
    Add,
    Subtract,
    Multiply,
    Divide,
    Modulo,
    Power,
    Atan2,
    Equal,
    NotEqual,
    LessOrEqual,
    Less,
    GreaterOrEqual,
    Greater,
    And,
    Or,
    Unless,
}

/// An aggregation.
#[derive(Clone, Copy, Drop, PartialEq, Eq, Debug)]
pub enum Agg {
    Sum,
    Min,
    Max,
    Avg,
    Group,
    Stddev,
    Stdvar,
    Count,
    Quantile,
    CountValues,
    Topk,
    Bottomk,
}

/// How a matcher compares a label's text: `=`, `!=`, `=~` or `!~`.
#[derive(Clone, Copy, Drop, PartialEq, Eq, Debug)]
pub enum MatchOp {
    Equal,
    NotEqual,
    Matches,
    NotMatches,
}

/// What an expression gives: a string, a scalar, an instant vector or a range vector.
#[derive(Clone, Copy, Drop, PartialEq, Eq, Debug)]
pub enum ExprType {
    Str,
    Scalar,
    Vector,
    Range,
}

/// A label name in a list, with its place in the source.
#[derive(Clone, Drop, Debug)]
pub struct Name {
    pub text: Text,
    pub span: Span,
}

/// A matcher of a selector. `value` is the text or the pattern without its quotes and escapes.
#[derive(Clone, Drop, Debug)]
pub struct Matcher {
    pub label: Text,
    pub op: MatchOp,
    pub value: Text,
    pub label_span: Span,
    pub value_span: Span,
}

/// How far and from where a selector or a subquery looks back.
#[derive(Clone, Drop, Debug)]
pub struct Sight {
    /// The duration of the range, as it is written.
    pub range: Option<Text>,
    /// The step of a subquery, as it is written.
    pub step: Option<Text>,
    /// The offset: a `-`, if it is there, and the duration.
    pub offset: Option<Text>,
    /// The time behind `@`: the sign, if it is there, and the number, or `start()` or `end()`.
    pub at: Option<Text>,
    /// The span of the range's duration.
    pub range_span: Span,
}

/// Which side of a vector matching has several samples for one of the other: neither, the left or the right.
#[derive(Clone, Copy, Drop, PartialEq, Eq, Debug)]
pub enum Group {
    One,
    Left,
    Right,
}

/// The modifier of a binary operator. Its span runs from its first to its last token, and is empty at the operator's end where there is none.
#[derive(Clone, Drop, Debug)]
pub struct Matching {
    pub bool_mod: bool,
    pub on: Option<Seq<Name>>,
    pub ignoring: Option<Seq<Name>>,
    pub group: Group,
    /// The labels behind `group_left` or `group_right`.
    pub include: Seq<Name>,
    pub span: Span,
}

/// The grouping of an aggregation.
#[derive(Clone, Drop, Debug)]
pub enum Grouping {
    None,
    By { labels: Seq<Name> },
    Without { labels: Seq<Name> },
}

/// An expression. Spans are of the source; of a binary operator, a call and an aggregation it is the span of the operator or word.
#[derive(Debug)]
pub enum Expr {
    Number {
        text: Text,
        span: Span,
    },
    Str {
        text: Text,
        span: Span,
    },
    Selector {
        name: Option<Text>,
        matchers: Seq<Matcher>,
        sight: Sight,
        span: Span,
    },
    Subquery {
        of: Box<Expr>,
        sight: Sight,
        span: Span,
    },
    Paren {
        of: Box<Expr>,
        span: Span,
    },
    Unary {
        minus: bool,
        of: Box<Expr>,
        span: Span,
    },
    Binary {
        op: Op,
        modifier: Matching,
        left: Box<Expr>,
        right: Box<Expr>,
        span: Span,
    },
    Call {
        name: Text,
        args: Seq<Expr>,
        span: Span,
    },
    Aggregate {
        op: Agg,
        grouping: Grouping,
        args: Seq<Expr>,
        span: Span,
    },
}

// A loop that turns a binary operator about until its left side is single, and then lets that go and goes on with the right one. So operators and parentheses need no
// stack, however they nest, and no memory. Arguments call.
impl Drop for Expr {
    #[cycle(dropping)]
    fn drop(mut self) {
        loop {
            match self {
                Expr::Number { text: _, span: _ } => return,
                Expr::Str { text: _, span: _ } => return,
                Expr::Selector {
                    name: _,
                    matchers: _,
                    sight: _,
                    span: _,
                } => return,
                Expr::Subquery {
                    of,
                    sight: _,
                    span: _,
                } => self = Box::into_inner(of),
                Expr::Paren { of, span: _ } => self = Box::into_inner(of),
                Expr::Unary {
                    minus: _,
                    of,
                    span: _,
                } => self = Box::into_inner(of),
                Expr::Binary {
                    op,
                    modifier,
                    mut left,
                    mut right,
                    span,
                } => {
                    if turn(&mut left, &mut right) {
                        self = Expr::Binary {
                            op,
                            modifier,
                            left: right,
                            right: left,
                            span,
                        };
                    } else {
                        self = Box::into_inner(right);
                    }
                }
                Expr::Call {
                    name: _,
                    args,
                    span: _,
                } => return release(args),
                Expr::Aggregate {
                    op: _,
                    grouping: _,
                    args,
                    span: _,
                } => return release(args),
            }
        }
    }
}

/// Lets expressions go.
#[cycle(dropping)]
fn release(args: Seq<Expr>) {
    drop(args)
}

/// Puts the right side of a binary operator in the place of the left side's first part, which becomes the right side, and says so. What is single, with no part or with
/// arguments, stays.
fn turn(left: &mut Expr, right: &mut Box<Expr>) -> bool
    ensures lighter { IsTrue result → weight right.new.value + weight right.new.value + weight left.new + 1 ≤ weight left.old + weight left.old + weight right.old.value }
    ensures inside { (n : ℕ) → Within n left.old → Within n right.old.value → Within n left.new × Within n right.new.value }
    ensures single { IsFalse result → (n : ℕ) → Within n left.old → size-Expr left.new + 1 ≤ n }
    ensures other { IsFalse result → right.new ≡ right.old }
{
    match left {
        Expr::Subquery { of, .. } => {
            mem::swap(of, right);
            true
        }
        Expr::Paren { of, .. } => {
            mem::swap(of, right);
            true
        }
        Expr::Unary { of, .. } => {
            mem::swap(of, right);
            true
        }
        Expr::Binary {
            left: first,
            right: second,
            ..
        } => {
            mem::swap(first, second);
            mem::swap(second, right);
            true
        }
        _ => false,
    }
}
