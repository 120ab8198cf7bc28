//! Expressions as S-expressions.

use crate::writer::Writer;
use lf_ast::{Agg, Expr, Group, Grouping, MatchOp, Matcher, Matching, Name, Op, Sight};
use lf_base::Text;
use std::alloc::Global;

/// An expression as an S-expression, without its spans.
pub fn tree_of(alloc: Global, expr: &Expr) -> Writer {
    let mut out = Writer::new(alloc);
    write_expr(&mut out, expr);
    out
}

fn write_expr(out: &mut Writer, expr: &Expr) {
    out.put("(");
    match expr {
        Expr::Number { text, .. } => {
            out.put("num ");
            out.put(text.as_str());
        }
        Expr::Str { text, .. } => {
            out.put("str ");
            out.quote(text.as_str());
        }
        Expr::Selector {
            name,
            matchers,
            sight,
            ..
        } => {
            out.put("sel ");
            out.put(name.as_ref().map_or("-", Text::as_str));
            write_matchers(out, matchers.as_slice());
            write_sight(out, sight);
        }
        Expr::Subquery { of, sight, .. } => {
            out.put("sub ");
            write_expr(out, of);
            write_sight(out, sight);
        }
        Expr::Paren { of, .. } => {
            out.put("paren ");
            write_expr(out, of);
        }
        Expr::Unary { minus, of, .. } => {
            out.put(if *minus { "neg " } else { "pos " });
            write_expr(out, of);
        }
        Expr::Binary {
            op,
            modifier,
            left,
            right,
            ..
        } => {
            out.put(op_text(*op));
            write_modifier(out, modifier);
            out.put(" ");
            write_expr(out, left);
            out.put(" ");
            write_expr(out, right);
        }
        Expr::Call { name, args, .. } => {
            out.put("call ");
            out.put(name.as_str());
            for arg in args.as_slice() {
                out.put(" ");
                write_expr(out, arg);
            }
        }
        Expr::Aggregate {
            op,
            grouping,
            args,
            ..
        } => {
            out.put("agg ");
            out.put(agg_text(*op));
            write_grouping(out, grouping);
            for arg in args.as_slice() {
                out.put(" ");
                write_expr(out, arg);
            }
        }
    }
    out.put(")");
}

fn write_matchers(out: &mut Writer, matchers: &[Matcher]) {
    for matcher in matchers {
        out.put(" (");
        out.put(match_text(matcher.op));
        out.put(" ");
        out.put(matcher.label.as_str());
        out.put(" ");
        out.quote(matcher.value.as_str());
        out.put(")");
    }
}

fn write_sight(out: &mut Writer, sight: &Sight) {
    write_part(out, "range", &sight.range);
    write_part(out, "step", &sight.step);
    write_part(out, "offset", &sight.offset);
    write_part(out, "at", &sight.at);
}

fn write_part(out: &mut Writer, word: &str, part: &Option<Text>) {
    if let Some(text) = part {
        out.put(" (");
        out.put(word);
        out.put(" ");
        out.put(text.as_str());
        out.put(")");
    }
}

/// A word and labels, in parentheses.
fn write_labels(out: &mut Writer, word: &str, labels: &[Name]) {
    out.put(" (");
    out.put(word);
    for label in labels {
        out.put(" ");
        out.put(label.text.as_str());
    }
    out.put(")");
}

/// The modifier of an operator, where there is one.
fn write_modifier(out: &mut Writer, modifier: &Matching) {
    if !modifier.bool_mod && modifier.on.is_none() && modifier.ignoring.is_none() {
        return;
    }
    out.put(if modifier.bool_mod {
        " (mod bool"
    } else {
        " (mod"
    });
    if let Some(labels) = &modifier.on {
        write_labels(out, "on", labels.as_slice());
    }
    if let Some(labels) = &modifier.ignoring {
        write_labels(out, "ignoring", labels.as_slice());
    }
    write_group(out, modifier.group, modifier.include.as_slice());
    out.put(")");
}

/// The side that has several samples, and the labels behind its word.
fn write_group(out: &mut Writer, group: Group, include: &[Name]) {
    match group {
        Group::One => {}
        Group::Left => write_labels(out, "left", include),
        Group::Right => write_labels(out, "right", include),
    }
}

fn write_grouping(out: &mut Writer, grouping: &Grouping) {
    match grouping {
        Grouping::None => {}
        Grouping::By { labels } => write_labels(out, "by", labels.as_slice()),
        Grouping::Without { labels } => write_labels(out, "without", labels.as_slice()),
    }
}

fn match_text(op: MatchOp) -> &'static str {
    match op {
        MatchOp::Equal => "=",
        MatchOp::NotEqual => "!=",
        MatchOp::Matches => "=~",
        MatchOp::NotMatches => "!~",
    }
}

fn op_text(op: Op) -> &'static str {
    match op {
        Op::Add => "+",
        Op::Subtract => "-",
        Op::Multiply => "*",
        Op::Divide => "/",
        Op::Modulo => "%",
        Op::Power => "^",
        Op::Atan2 => "atan2",
        Op::Equal => "==",
        Op::NotEqual => "!=",
        Op::LessOrEqual => "<=",
        Op::Less => "<",
        Op::GreaterOrEqual => ">=",
        Op::Greater => ">",
        Op::And => "and",
        Op::Or => "or",
        Op::Unless => "unless",
    }
}

fn agg_text(op: Agg) -> &'static str {
    match op {
        Agg::Sum => "sum",
        Agg::Min => "min",
        Agg::Max => "max",
        Agg::Avg => "avg",
        Agg::Group => "group",
        Agg::Stddev => "stddev",
        Agg::Stdvar => "stdvar",
        Agg::Count => "count",
        Agg::Quantile => "quantile",
        Agg::CountValues => "count_values",
        Agg::Topk => "topk",
        Agg::Bottomk => "bottomk",
    }
}
