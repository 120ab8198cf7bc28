//! Recording rules written out without spans, so that two are written alike exactly where they are the same.
ghost use Rattle.std.specs.Prelude.{◌≡◌, ◌<◌, ◌++◌, ◌∷◌, [], string_bytes, IfOk, OnOk};
ghost use Rattle.lf_ast.specs.Rules.{rule_tree};
ghost use Rattle.lf_ast.specs.Tree.{tree};
ghost use Rattle.lf_checks.specs.views.Keys.{agg_mark, count_code, expr_code, flag_code, group_mark, grouping_code, key_of, label_code, list_code, match_mark, matcher_code, matching_code, names_code, node_code, op_mark, option_code, sight_code, text_code};

use lf_ast::walk::nodes_of;
use lf_ast::{
    Agg, Expr, Group, Grouping, MatchOp, Matcher, Matching, Name, Op, Rule, RuleLabel, Sight,
};
use lf_base::{Memory, Seq, Text};
use std::alloc::Global;

/// What a recording rule is written as: its name, its labels and its expression. It takes about as long as these are.
pub(crate) fn key_of(alloc: Global, rule: &Rule) -> Result<String, Memory>
    ensures { IfOk result (λ key. string_bytes key ≡ key_of (rule_tree rule.now)) }
{
    let mut key = String::new(alloc);
    put_text(&mut key, rule.name.as_str())?;
    put_labels(&mut key, rule.labels.as_slice())?;
    put_expr(alloc, &mut key, &rule.expr)?;
    Ok(key)
}

/// Writes a mark.
fn put_mark(key: &mut String, mark: char) -> Result<(), Memory>
    requires { mark < 128 }
    ensures { OnOk result (string_bytes key.new ≡ string_bytes key.old ++ mark ∷ []) }
{
    key.push(mark)?;
    Ok(())
}

/// Writes a count.
fn put_count(key: &mut String, count: usize) -> Result<(), Memory>
    ensures { OnOk result (string_bytes key.new ≡ string_bytes key.old ++ count_code count) }
{
    for _done in 0..count {
        put_mark(key, '1')?;
    }
    put_mark(key, '0')
}

/// Writes a text behind its length.
fn put_text(key: &mut String, text: &str) -> Result<(), Memory>
    ensures { OnOk result (string_bytes key.new ≡ string_bytes key.old ++ text_code text.now) }
{
    put_count(key, text.len())?;
    key.push_str(text)?;
    Ok(())
}

/// Writes a truth value.
fn put_flag(key: &mut String, flag: bool) -> Result<(), Memory>
    ensures { OnOk result (string_bytes key.new ≡ string_bytes key.old ++ flag_code flag) }
{
    put_mark(key, if flag { '1' } else { '0' })
}

/// Writes a text, if there is one.
fn put_option(key: &mut String, text: &Option<Text>) -> Result<(), Memory>
    ensures { OnOk result (string_bytes key.new ≡ string_bytes key.old ++ option_code text_code text.now) }
{
    match text {
        Some(text) => {
            put_mark(key, '1')?;
            put_text(key, text.as_str())
        }
        None => put_mark(key, '0'),
    }
}

/// Writes the names of a list.
fn put_names(key: &mut String, names: &[Name]) -> Result<(), Memory>
    ensures { OnOk result (string_bytes key.new ≡ string_bytes key.old ++ names_code names.now) }
{
    for name in names {
        put_mark(key, '1')?;
        put_text(key, name.text.as_str())?;
    }
    put_mark(key, '0')
}

/// Writes the names of a list, if there is one.
fn put_named(key: &mut String, names: &Option<Seq<Name>>) -> Result<(), Memory>
    ensures { OnOk result (string_bytes key.new ≡ string_bytes key.old ++ option_code names_code names.now) }
{
    match names {
        Some(names) => {
            put_mark(key, '1')?;
            put_names(key, names.as_slice())
        }
        None => put_mark(key, '0'),
    }
}

/// Writes matchers.
fn put_matchers(key: &mut String, matchers: &[Matcher]) -> Result<(), Memory>
    ensures { OnOk result (string_bytes key.new ≡ string_bytes key.old ++ list_code matcher_code matchers.now) }
{
    for matcher in matchers {
        put_mark(key, '1')?;
        put_matcher(key, matcher)?;
    }
    put_mark(key, '0')
}

/// Writes a matcher.
fn put_matcher(key: &mut String, matcher: &Matcher) -> Result<(), Memory>
    ensures { OnOk result (string_bytes key.new ≡ string_bytes key.old ++ matcher_code matcher.now) }
{
    put_mark(key, match_mark(matcher.op))?;
    put_text(key, matcher.label.as_str())?;
    put_text(key, matcher.value.as_str())
}

/// Writes how far and from where a selector or a subquery looks back.
fn put_sight(key: &mut String, sight: &Sight) -> Result<(), Memory>
    ensures { OnOk result (string_bytes key.new ≡ string_bytes key.old ++ sight_code sight.now) }
{
    put_option(key, &sight.range)?;
    put_option(key, &sight.step)?;
    put_option(key, &sight.offset)?;
    put_option(key, &sight.at)
}

/// Writes the modifier of an operator.
fn put_matching(key: &mut String, matching: &Matching) -> Result<(), Memory>
    ensures { OnOk result (string_bytes key.new ≡ string_bytes key.old ++ matching_code matching.now) }
{
    put_flag(key, matching.bool_mod)?;
    put_mark(key, group_mark(matching.group))?;
    put_named(key, &matching.on)?;
    put_named(key, &matching.ignoring)?;
    put_names(key, matching.include.as_slice())
}

/// Writes the grouping of an aggregation.
fn put_grouping(key: &mut String, grouping: &Grouping) -> Result<(), Memory>
    ensures { OnOk result (string_bytes key.new ≡ string_bytes key.old ++ grouping_code grouping.now) }
{
    match grouping {
        Grouping::None => put_mark(key, 'a'),
        Grouping::By { labels } => {
            put_mark(key, 'b')?;
            put_names(key, labels.as_slice())
        }
        Grouping::Without { labels } => {
            put_mark(key, 'c')?;
            put_names(key, labels.as_slice())
        }
    }
}

/// Writes an expression.
fn put_expr(alloc: Global, key: &mut String, expr: &Expr) -> Result<(), Memory>
    ensures { OnOk result (string_bytes key.new ≡ string_bytes key.old ++ expr_code (tree expr.now)) }
{
    let nodes = nodes_of(alloc, expr)?;
    for node in &nodes {
        put_node(key, node)?;
    }
    Ok(())
}

/// Writes an expression without its parts.
fn put_node(key: &mut String, node: &Expr) -> Result<(), Memory>
    ensures { OnOk result (string_bytes key.new ≡ string_bytes key.old ++ node_code (tree node.now)) }
{
    match node {
        Expr::Number { text, .. } => {
            put_mark(key, 'a')?;
            put_text(key, text.as_str())
        }
        Expr::Str { text, .. } => {
            put_mark(key, 'b')?;
            put_text(key, text.as_str())
        }
        Expr::Selector {
            name,
            matchers,
            sight,
            ..
        } => put_selector(key, name, matchers.as_slice(), sight),
        Expr::Subquery { sight, .. } => {
            put_mark(key, 'd')?;
            put_sight(key, sight)
        }
        Expr::Paren { .. } => put_mark(key, 'e'),
        Expr::Unary { minus, .. } => {
            put_mark(key, 'f')?;
            put_flag(key, *minus)
        }
        Expr::Binary { op, modifier, .. } => put_operator(key, *op, modifier),
        Expr::Call { name, args, .. } => put_call(key, name, args.len()),
        Expr::Aggregate {
            op,
            grouping,
            args,
            ..
        } => put_aggregation(key, *op, grouping, args.len()),
    }
}

/// Writes a selector.
fn put_selector(
    key: &mut String,
    name: &Option<Text>,
    matchers: &[Matcher],
    sight: &Sight,
) -> Result<(), Memory>
    ensures { OnOk result (string_bytes key.new ≡ string_bytes key.old ++ 99 ∷ (option_code text_code name.now ++ (list_code matcher_code matchers.now ++ sight_code sight.now))) }
{
    put_mark(key, 'c')?;
    put_option(key, name)?;
    put_matchers(key, matchers)?;
    put_sight(key, sight)
}

/// Writes an operator and its modifier.
fn put_operator(key: &mut String, op: Op, matching: &Matching) -> Result<(), Memory>
    ensures { OnOk result (string_bytes key.new ≡ string_bytes key.old ++ 103 ∷ op_mark op ∷ matching_code matching.now) }
{
    put_mark(key, 'g')?;
    put_mark(key, op_mark(op))?;
    put_matching(key, matching)
}

/// Writes a call with this many arguments.
fn put_call(key: &mut String, name: &Text, args: usize) -> Result<(), Memory>
    ensures { OnOk result (string_bytes key.new ≡ string_bytes key.old ++ 104 ∷ (text_code name.now ++ count_code args)) }
{
    put_mark(key, 'h')?;
    put_text(key, name.as_str())?;
    put_count(key, args)
}

/// Writes an aggregation with this many arguments.
fn put_aggregation(
    key: &mut String,
    op: Agg,
    grouping: &Grouping,
    args: usize,
) -> Result<(), Memory>
    ensures { OnOk result (string_bytes key.new ≡ string_bytes key.old ++ 105 ∷ agg_mark op ∷ (grouping_code grouping.now ++ count_code args)) }
{
    put_mark(key, 'i')?;
    put_mark(key, agg_mark(op))?;
    put_grouping(key, grouping)?;
    put_count(key, args)
}

/// Writes the labels of a rule and their texts.
fn put_labels(key: &mut String, labels: &[RuleLabel]) -> Result<(), Memory>
    ensures { OnOk result (string_bytes key.new ≡ string_bytes key.old ++ list_code label_code labels.now) }
{
    for label in labels {
        put_mark(key, '1')?;
        put_label(key, label)?;
    }
    put_mark(key, '0')
}

/// Writes a label of a rule and its text.
fn put_label(key: &mut String, label: &RuleLabel) -> Result<(), Memory>
    ensures { OnOk result (string_bytes key.new ≡ string_bytes key.old ++ label_code label.now) }
{
    put_text(key, label.key.as_str())?;
    put_text(key, label.value.as_str())
}

/// The mark of how a matcher compares.
fn match_mark(op: MatchOp) -> char
    ensures mark { result ≡ match_mark op }
    ensures ascii { result < 128 }
{
    match op {
        MatchOp::Equal => 'a',
        MatchOp::NotEqual => 'b',
        MatchOp::Matches => 'c',
        MatchOp::NotMatches => 'd',
    }
}

/// The mark of which side of a match has several samples for one of the other.
fn group_mark(group: Group) -> char
    ensures mark { result ≡ group_mark group }
    ensures ascii { result < 128 }
{
    match group {
        Group::One => 'a',
        Group::Left => 'b',
        Group::Right => 'c',
    }
}

/// The mark of an operator.
fn op_mark(op: Op) -> char
    ensures mark { result ≡ op_mark op }
    ensures ascii { result < 128 }
{
    match op {
        Op::Add => 'a',
        Op::Subtract => 'b',
        Op::Multiply => 'c',
        Op::Divide => 'd',
        Op::Modulo => 'e',
        Op::Power => 'f',
        Op::Atan2 => 'g',
        Op::Equal => 'h',
        Op::NotEqual => 'i',
        Op::LessOrEqual => 'j',
        Op::Less => 'k',
        Op::GreaterOrEqual => 'l',
        Op::Greater => 'm',
        Op::And => 'n',
        Op::Or => 'o',
        Op::Unless => 'p',
    }
}

/// The mark of an aggregation.
fn agg_mark(op: Agg) -> char
    ensures mark { result ≡ agg_mark op }
    ensures ascii { result < 128 }
{
    match op {
        Agg::Sum => 'a',
        Agg::Min => 'b',
        Agg::Max => 'c',
        Agg::Avg => 'd',
        Agg::Group => 'e',
        Agg::Stddev => 'f',
        Agg::Stdvar => 'g',
        Agg::Count => 'h',
        Agg::Quantile => 'i',
        Agg::CountValues => 'j',
        Agg::Topk => 'k',
        Agg::Bottomk => 'l',
    }
}
