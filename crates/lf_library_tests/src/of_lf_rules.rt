//! Tests of lf_rules: that rules are read where there is memory. Trees of every sort, and one and more for each refusal, are data:
//! `tests/vectors/rules.jsonl` and `rules-more.jsonl`, which `./test` runs.

use lf_base::{Kind, Refusal, Span};
use lf_rules::{RuleSource, one_answer, read_rules};
use lf_yaml::{Node, read_tree};
use std::alloc::Global;
use std::process::Abort;
use std::test::Fail;

/// A file with one group of one recording rule.
const ONE_RULE: &str = "groups:\n- name: g\n  rules:\n  - record: a\n    expr: b\n";

/// The tree of a file.
fn tree(rt: &impl Abort, alloc: Global, text: &str) -> Result<Node, Fail> {
    assert!(rt; text.len() < 999);
    match read_tree(alloc, text.as_bytes()) {
        Ok(tree) => Ok(tree),
        Err(_) => panic!(rt; "no tree"),
    }
}

/// Whether a rule records `a` of `b`.
fn records_a_of_b(rule: &RuleSource) -> bool {
    !rule.alert && rule.name.text.as_str() == "a" && rule.expr.text.as_str() == "b"
}

#[test]
fn rules(rt: HostRuntime) -> Result<(), Fail> {
    one_answer();
    let tree = tree(&rt, rt.alloc(), ONE_RULE)?;
    match read_rules(rt.alloc(), &tree) {
        Ok(rules) => {
            assert_eq!(rt; rules.len(), 1);
            assert!(rt; records_a_of_b(rules.get(0)));
            Ok(())
        }
        Err(_) => panic!(rt; "refused"),
    }
}

#[test]
fn refusals(rt: HostRuntime) -> Result<(), Fail> {
    let tree = tree(&rt, rt.alloc(), "a")?;
    let refusal = read_rules(rt.alloc(), &tree).err();
    let span = Span { start: 0, end: 1 };
    let kind = Kind::WrongKind;
    assert_eq!(rt; refusal, Some(Refusal::At { kind, span }));
    Ok(())
}
