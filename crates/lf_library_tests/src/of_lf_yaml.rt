//! Tests of lf_yaml: that trees are read where there is memory, and how the project's words read on one file for each refusal. Many more files are data:
//! `tests/vectors/trees.jsonl` and `trees-more.jsonl`, which `./test` runs.

use lf_base::{Kind, Refusal, Span};
use lf_scalar::Scalar;
use lf_yaml::{Node, one_answer, read_tree};
use std::alloc::{AllocError, Global};
use std::process::Abort;
use std::test::Fail;

/// A file and its tree: a scalar's text between quotes, the items of a list between brackets, the entries of a mapping between braces, and behind each its span.
struct Read(&'static str, &'static str);

/// Spans are counted by hand.
const READ: [Read; 7] = [
    Read("", "''0-0"),
    Read("a: b\n", "{'a'0-1:'b'3-4}0-4"),
    Read(
        "a:\n- b\n- c\nd: e",
        "{'a'0-1:['b'5-6'c'9-10]3-10'd'11-12:'e'14-15}0-15",
    ),
    Read(
        "- - a\n  - b: c\n- \"d\": \n",
        "[['a'4-5{'b'10-11:'c'13-14}10-14]2-14{'d'17-20:''21-21}17-21]0-21",
    ),
    Read(
        "\u{feff}# x\r\n--- # y\r\na: |\r\n  b\r\n\r\n# z\r\n",
        "{'a'17-18:'b\n'20-28}17-28",
    ),
    Read(
        "a: [b, \"c\",\n  d]\ne: {f: g}\n",
        "{'a'0-1:['b'4-5'c'7-10'd'14-15]3-16'e'17-18:{'f'21-22:'g'24-25}20-26}0-26",
    ),
    // sixteen levels
    Read(
        "- - - - - - - - - - - - - - - - a",
        "[[[[[[[[[[[[[[[['a'32-33]30-33]28-33]26-33]24-33]22-33]20-33]18-33]16-33]14-33]12-33]10-33]8-33]6-33]4-33]2-33]0-33",
    ),
];

/// A file, the kind of its refusal, and the start and the end of the span.
struct Refused(&'static str, Kind, u32, u32);

const REFUSED: [Refused; 14] = [
    Refused("groups: &x []\n", Kind::LeftOut, 8, 9),
    Refused("groups: []\ngroups: []\n", Kind::DoubleKey, 11, 17),
    Refused("groups:\n\t- name: g\n", Kind::BadIndent, 8, 9),
    Refused("groups: \"a", Kind::OpenQuote, 8, 9),
    Refused("a:\n  b: c\n d: e\n", Kind::BadIndent, 11, 12),
    Refused("a: b\n---\nc: d\n", Kind::LeftOut, 5, 6),
    Refused("- a\nb: c\n", Kind::NotANode, 4, 5),
    Refused("a: b: c\n", Kind::NotANode, 3, 4),
    Refused("'a' b\n", Kind::NotANode, 4, 5),
    Refused("? a\n", Kind::LeftOut, 0, 1),
    Refused("a: [b, [c]]\n", Kind::LeftOut, 7, 8),
    Refused("a: |x\n", Kind::BadHeader, 4, 5),
    Refused("a: \"\\q\"\n", Kind::BadEscape, 4, 5),
    // seventeen levels
    Refused("- - - - - - - - - - - - - - - - - a", Kind::TooDeep, 32, 33),
];

fn write_span(alloc: Global, out: &mut String, span: Span) -> Result<(), AllocError> {
    let start = span.start;
    let end = span.end;
    out.push_str(format!(in alloc; "{start}-{end}")?.as_str())
}

fn write_scalar(alloc: Global, out: &mut String, of: &Scalar) -> Result<(), AllocError> {
    out.push('\'')?;
    out.push_str(of.text.as_str())?;
    out.push('\'')?;
    write_span(alloc, out, of.span)
}

fn write_node(alloc: Global, out: &mut String, node: &Node) -> Result<(), AllocError> {
    match node {
        Node::Scalar { of } => write_scalar(alloc, out, of),
        Node::List { items, span } => {
            out.push('[')?;
            for item in items.as_slice() {
                write_node(alloc, out, item)?;
            }
            out.push(']')?;
            write_span(alloc, out, *span)
        }
        Node::Map { entries, span } => {
            out.push('{')?;
            for entry in entries.as_slice() {
                write_scalar(alloc, out, &entry.key)?;
                out.push(':')?;
                write_node(alloc, out, &entry.value)?;
            }
            out.push('}')?;
            write_span(alloc, out, *span)
        }
    }
}

fn reads(rt: &impl Abort, alloc: Global, case: &Read) -> Result<(), Fail> {
    let bytes = case.0.as_bytes();
    assert!(rt; bytes.len() < 99);
    match read_tree(alloc, bytes) {
        Ok(node) => {
            let mut out = String::new(alloc);
            write_node(alloc, &mut out, &node)?;
            assert_eq!(rt; out.as_str(), case.1);
            Ok(())
        }
        Err(_) => panic!(rt; "it was refused"),
    }
}

fn refuses(
    rt: &impl Abort,
    alloc: Global,
    bytes: &[u8],
    kind: Kind,
    span: Span,
) -> Result<(), Fail> {
    assert!(rt; bytes.len() < 99);
    match read_tree(alloc, bytes) {
        Err(Refusal::At { kind: k, span: s }) => {
            assert_eq!(rt; k, kind);
            assert_eq!(rt; s, span);
            Ok(())
        }
        _ => panic!(rt; "it was read"),
    }
}

#[test]
fn trees(rt: HostRuntime) -> Result<(), Fail> {
    one_answer();
    for case in &READ {
        reads(&rt, rt.alloc(), case)?;
    }
    Ok(())
}

#[test]
fn refusals(rt: HostRuntime) -> Result<(), Fail> {
    for Refused(source, kind, start, end) in &REFUSED {
        let span = Span {
            start: *start,
            end: *end,
        };
        refuses(&rt, rt.alloc(), source.as_bytes(), *kind, span)?;
    }
    let cut = Span { start: 2, end: 3 };
    refuses(&rt, rt.alloc(), b"\x01a\xff", Kind::BadUtf8, cut)?;
    let control = Span { start: 1, end: 2 };
    refuses(&rt, rt.alloc(), b"a\x01", Kind::BadChar, control)
}
