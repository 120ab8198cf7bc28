//! The call `rules`: the rules of a file's bytes, or their refusal, as JSON. The file's tree is read first, and where it is refused that is the answer.
ghost use Rattle.std.specs.Prelude.{◌≤◌, ◌^◌, length};

use crate::answer::refused;
use crate::case::TestCase;
use crate::lengths::ask_length;
use crate::timing::Stopwatch;
use crate::writer::Writer;
use anyhow::Result;
use lf_base::{Refusal, Seq};
use lf_rules::{Pair, RuleSource, read_rules};
use lf_scalar::Scalar;
use lf_yaml::read_tree;
use std::alloc::Global;
use std::time::Duration;

/// Writes what `read_rules` answers on the tree of a case's bytes.
pub fn answer(alloc: Global, case: &TestCase, out: &mut Writer) -> Result<()> {
    let bytes = case.bytes();
    ask_length(bytes)?;
    match read(alloc, bytes) {
        Ok(rules) => write_rules(out, rules.as_slice()),
        Err(refusal) => out.refusal(refusal),
    }
    Ok(())
}

/// The processor time of `read_rules` on the tree of a text.
pub fn time(rt: &HostRuntime, text: &str) -> Result<Duration> {
    let bytes = text.as_bytes();
    ask_length(bytes)?;
    let tree = read_tree(rt.alloc(), bytes).map_err(refused)?;
    let watch = Stopwatch::start(rt);
    let rules = read_rules(rt.alloc(), &tree);
    watch.taken(rt, rules.map_err(refused))
}

/// The rules of a file's bytes, or its refusal.
fn read(alloc: Global, bytes: &[u8]) -> Result<Seq<RuleSource>, Refusal>
    requires { length bytes.now ≤ 2 ^ 31 }
{
    let tree = read_tree(alloc, bytes)?;
    read_rules(alloc, &tree)
}

fn write_rules(out: &mut Writer, rules: &[RuleSource]) {
    out.open("[");
    for rule in rules {
        write_rule(out, rule);
    }
    out.close("]");
}

/// A rule's parts.
fn write_rule(out: &mut Writer, rule: &RuleSource) {
    out.open("{");
    out.key("alert");
    out.truth(rule.alert);
    out.key("name");
    write_scalar(out, &rule.name);
    out.key("expr");
    write_scalar(out, &rule.expr);
    out.key("labels");
    write_pairs(out, rule.labels.as_slice());
    out.key("annotations");
    write_pairs(out, rule.annotations.as_slice());
    out.key("group");
    out.number(rule.group);
    out.close("}");
}

/// A list of keys and their texts.
fn write_pairs(out: &mut Writer, pairs: &[Pair]) {
    out.open("[");
    for pair in pairs {
        out.open("[");
        write_scalar(out, &pair.key);
        write_scalar(out, &pair.value);
        out.close("]");
    }
    out.close("]");
}

/// A scalar's text and span.
fn write_scalar(out: &mut Writer, scalar: &Scalar) {
    out.open("{");
    out.member("text", scalar.text.as_str());
    out.span_member(scalar.span);
    out.close("}");
}
