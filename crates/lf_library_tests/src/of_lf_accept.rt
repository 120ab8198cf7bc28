//! Files that are accepted, and files that are refused, each with the place of its first breach.

use lf_accept::accept;
use lf_base::{Kind, Refusal, Span};
use std::alloc::{AllocError, Global};
use std::test::Fail;
use std::thread::join;

/// The offset of the first expression of a file.
const FIRST: u32 = 53;

/// How many bytes stand between the first expression of a file and the second.
const BETWEEN: u32 = 24;

/// A hundred operators, each with the next one in its right operand.
const OPERATORS: &str =
    "a^-a^-a^-a^-a^-a^-a^-a^-a^-a^-a^-a^-a^-a^-a^-a^-a^-a^-a^-a^-a^-a^-a^-a^-a^-a^-a^-a^-a^-a^-a^-a^-a^-a^-a^-a^-a^-a^-a^-a^-a^-a^-a^-a^-a^-a^-a^-a^-a^-a^-";

/// A file with a recording rule and an alert, of these expressions.
fn file(alloc: Global, first: &str, second: &str) -> Result<String, AllocError> {
    format!(in alloc;
        "groups:\n- name: g\n  rules:\n  - record: a:b\n    expr: {first}\n  - alert: C\n    expr: {second}\n"
    )
}

/// Why a file is refused, where it is and memory doesn't run out.
fn refusal(alloc: Global, text: &str) -> Option<(Kind, Span)> {
    if text.len() > 1_000_000 {
        return None;
    }
    match accept(alloc, text.as_bytes(), 0) {
        Ok(_) => None,
        Err(Refusal::Memory) => None,
        Err(Refusal::At { kind, span }) => Some((kind, span)),
    }
}

#[test]
fn rules_are_accepted(rt: HostRuntime) -> Result<(), Fail> {
    let text =
        "groups:\n- name: g\n  rules:\n  - record: a:b\n    expr: sum by (job) (up)\n    labels: {team: x}\n  - alert: C\n    expr: ((sum((up{job='a'})) by (job)))\n    labels: {team: y}\n    annotations: {summary: z}\n";
    let rules = accept(rt.alloc(), text.as_bytes(), 7)?;
    assert_eq!(rt; rules.len(), 2);
    let (record, alert) = (rules.get(0), rules.get(1));
    assert_eq!(rt; record.name.as_str(), "a:b");
    assert_eq!(rt; record.file, 7);
    assert!(rt; !record.alert);
    assert_eq!(rt; record.name_span, Span { start: 39, end: 42 });
    assert_eq!(rt; record.expr_span, Span { start: 53, end: 70 });
    assert_eq!(rt; record.labels.len(), 1);
    assert_eq!(rt; record.templates.len(), 0);
    assert!(rt; alert.alert);
    assert_eq!(rt; alert.labels.len(), 1);
    assert_eq!(rt; alert.templates.len(), 2);
    Ok(())
}

/// How many rules a file has, where it is accepted.
fn accepted(alloc: Global, text: &str) -> Option<usize> {
    if text.len() > 1_000_000 {
        return None;
    }
    match accept(alloc, text.as_bytes(), 0) {
        Ok(rules) => Some(rules.len()),
        Err(_) => None,
    }
}

#[test]
fn each_construct_is_accepted(rt: HostRuntime) -> Result<(), Fail> {
    let cases = [
        "1",
        "up",
        "up[5m]",
        "-up",
        "up[5m:1m]",
        "sum(foo)",
        "max by (a) (foo)",
        "sum by (a) (a:b)",
        "sum without (a) (foo{b!=\"c\"})",
        "sum by (a) (foo{b=\"c\",b=\"d\"})",
        "sum by (a) ({__name__=\"foo\"})",
        "foo offset 5m",
        "foo @ 5",
        "foo * on (a) group_left (b) bar",
        "foo and bar or baz unless qux",
        "foo > bool 1",
        "rate(foo[5m])",
        "absent(foo{b=~\"c.*\"})",
        "label_replace(foo, \"a\", \"$1\", \"b\", \"(.*)\")",
        "foo{b!~\"x|y\",c=\"\"}",
        "({__name__!=\"\"})",
        "({b=~\".+\"})",
    ];
    for expr in cases {
        let text = file(rt.alloc(), expr, "up")?;
        assert_eq!(rt; accepted(rt.alloc(), text.as_str()), Some(2), "{expr}");
    }
    Ok(())
}

#[test]
fn the_first_breach_is_told(rt: HostRuntime) -> Result<(), Fail> {
    // The expressions, the kind, which expression is told, and where its breach begins and ends in it.
    let cases = [
        // The types of a rule before the tokens of a later one.
        ("foo + \"x\"", "$", Kind::WrongType, false, 6, 9),
        // In one rule the tokens before the syntax.
        (") $", "up", Kind::BadByte, false, 2, 3),
        // The end of a text.
        ("sum by (a) (foo)", "foo +", Kind::Syntax, true, 5, 5),
        // In one rule the types before the patterns, and in an earlier rule too.
        (
            "foo{b!~\"(\"} + \"x\"",
            "up",
            Kind::WrongType,
            false,
            14,
            17,
        ),
        ("foo + \"x\"", "foo{b!~\"(\"}", Kind::WrongType, false, 6, 9),
        // The patterns of a rule before the tokens of a later one.
        ("foo{b!~\"(\"}", "$", Kind::BadPattern, false, 7, 10),
        ("up", "foo{b!~\"(\"}", Kind::BadPattern, true, 7, 10),
        // Of two patterns the first.
        (
            "foo{b=~\"[\"} + foo{b!~\"(\"}",
            "up",
            Kind::BadPattern,
            false,
            7,
            10,
        ),
        // The pattern of `label_replace`.
        (
            "label_replace(foo, \"a\", \"$1\", \"b\", \"(\")",
            "up",
            Kind::BadPattern,
            false,
            35,
            38,
        ),
        // Selectors that name no metric, or name it twice.
        ("up", "({b=\"\"})", Kind::BadSelector, true, 1, 7),
        ("({b!~\".+\"})", "up", Kind::BadSelector, false, 1, 10),
        (
            "sum by (a) (foo{__name__=\"x\"})",
            "up",
            Kind::BadSelector,
            false,
            12,
            29,
        ),
        // A pattern that can't be read passes nothing, so the selector isn't bad by it.
        ("({b!~\"(\"})", "up", Kind::BadPattern, false, 5, 8),
    ];
    for (first, second, kind, is_second, start, end) in cases {
        let text = file(rt.alloc(), first, second)?;
        assert!(rt; first.len() < 1000);
        let at = if is_second {
            FIRST + first.len() as u32 + BETWEEN
        } else {
            FIRST
        };
        let span = Span {
            start: at + start,
            end: at + end,
        };
        assert_eq!(rt;
            refusal(rt.alloc(), text.as_str()),
            Some((kind, span)),
            "{first}, {second}"
        );
    }
    Ok(())
}

#[test]
fn the_deepest_expression_is_read_on_another_thread(rt: HostRuntime) -> Result<(), Fail> {
    let alloc = rt.alloc();
    let mut expr = String::from_str(alloc, "a")?;
    for _ in 0..100 {
        expr = format!(in alloc; "{OPERATORS}({expr})")?;
    }
    let text = file(alloc, expr.as_str(), "up")?;
    let (here, there) = join(
        &rt,
        || accepted(alloc, text.as_str()),
        || accepted(alloc, text.as_str()),
    );
    assert_eq!(rt; here, Some(2));
    assert_eq!(rt; there, Some(2));
    Ok(())
}
