//! The spans of an expression: a list for each node, its own span first and its parts behind it.

use crate::writer::Writer;
use lf_ast::{Expr, Grouping, Matcher, Matching, Name, Sight};

/// The spans of an expression as JSON.
pub fn write_spans(out: &mut Writer, expr: &Expr) {
    out.open("[");
    match expr {
        Expr::Number { span, .. } | Expr::Str { span, .. } => out.span(*span),
        Expr::Selector {
            matchers,
            sight,
            span,
            ..
        } => {
            out.span(*span);
            write_matchers(out, matchers.as_slice());
            write_range(out, sight);
        }
        Expr::Subquery { of, sight, span } => {
            out.span(*span);
            write_spans(out, of);
            write_range(out, sight);
        }
        Expr::Paren { of, span } | Expr::Unary { of, span, .. } => {
            out.span(*span);
            write_spans(out, of);
        }
        Expr::Binary {
            modifier,
            left,
            right,
            span,
            ..
        } => {
            out.span(*span);
            write_modifier(out, modifier);
            write_spans(out, left);
            write_spans(out, right);
        }
        Expr::Call { args, span, .. } => {
            out.span(*span);
            for arg in args.as_slice() {
                write_spans(out, arg);
            }
        }
        Expr::Aggregate {
            grouping,
            args,
            span,
            ..
        } => {
            out.span(*span);
            write_labels(out, labels_of(grouping));
            for arg in args.as_slice() {
                write_spans(out, arg);
            }
        }
    }
    out.close("]");
}

/// The spans of each matcher's label and value.
fn write_matchers(out: &mut Writer, matchers: &[Matcher]) {
    for matcher in matchers {
        out.open("[");
        out.span(matcher.label_span);
        out.span(matcher.value_span);
        out.close("]");
    }
}

/// The span of a range's duration, where there is a range.
fn write_range(out: &mut Writer, sight: &Sight) {
    if sight.range.is_some() {
        out.span(sight.range_span);
    }
}

fn write_labels(out: &mut Writer, labels: &[Name]) {
    out.open("[");
    for label in labels {
        out.span(label.span);
    }
    out.close("]");
}

/// The span of a modifier and those of its labels.
fn write_modifier(out: &mut Writer, modifier: &Matching) {
    out.open("[");
    out.span(modifier.span);
    match modifier.on.as_ref().or(modifier.ignoring.as_ref()) {
        Some(labels) => write_labels(out, labels.as_slice()),
        None => write_labels(out, &[]),
    }
    write_labels(out, modifier.include.as_slice());
    out.close("]");
}

/// The labels that an aggregation groups by, or without.
fn labels_of(grouping: &Grouping) -> &[Name] {
    match grouping {
        Grouping::None => &[],
        Grouping::By { labels } | Grouping::Without { labels } => labels.as_slice(),
    }
}
