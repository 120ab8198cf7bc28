//! Tests of lf_scalar: that scalars are read where there is memory. Many more are data: `tests/vectors/scalars.jsonl`, which `./test` runs.

use lf_base::{Kind, Refusal, Span};
use lf_scalar::{Style, begins_scalar, read_scalar};
use std::alloc::Global;
use std::process::Abort;
use std::test::Fail;

/// A scalar under a key at the line's start, with its text, its offsets and its end.
struct Case {
    source: &'static str,
    at: u32,
    style: Style,
    text: &'static str,
    from: &'static [u32],
    end: u32,
}

/// A scalar of each style. Offsets are counted in the source by hand.
const CASES: [Case; 5] = [
    Case {
        source: "a: b\n  c # d\n",
        at: 3,
        style: Style::Plain,
        text: "b c",
        from: &[3, 4, 7, 8],
        end: 8,
    },
    Case {
        source: "a: 'it''s'\n",
        at: 3,
        style: Style::Single,
        text: "it's",
        from: &[4, 5, 6, 8, 9],
        end: 10,
    },
    Case {
        source: "a: \"\\u00e9\\\r\n  b\" # c\n",
        at: 3,
        style: Style::Double,
        text: "\u{e9}b",
        from: &[4, 4, 15, 16],
        end: 17,
    },
    Case {
        source: "a: |\n  b\n   c\n\n",
        at: 3,
        style: Style::Literal,
        text: "b\n c\n",
        from: &[7, 8, 11, 12, 13, 14],
        end: 14,
    },
    Case {
        source: "a: >-\n  b\n  c\n\n  d",
        at: 3,
        style: Style::Folded,
        text: "b c\nd",
        from: &[8, 9, 12, 13, 17, 18],
        end: 18,
    },
];

/// The scalar is read as its case says, and the source of its first byte is told.
fn reads(rt: &impl Abort, alloc: Global, case: &Case) -> Result<(), Fail> {
    let bytes = case.source.as_bytes();
    assert!(rt; bytes.len() < 99);
    assert!(rt; begins_scalar(bytes, case.at, case.style));
    match read_scalar(alloc, bytes, case.at, 0, case.style) {
        Ok(scalar) => {
            assert_eq!(rt; scalar.text.as_str(), case.text);
            assert!(rt; scalar.from.as_slice() == case.from);
            let start = case.at;
            let end = case.end;
            assert_eq!(rt; scalar.span, Span { start, end });
            assert!(rt; scalar.text.len() > 0);
            let first = scalar.source(Span { start: 0, end: 1 });
            assert_eq!(rt; first.start, *scalar.from.get(0));
            assert_eq!(rt; first.end, *scalar.from.get(1));
            let copy = scalar.copy()?;
            assert_eq!(rt; copy.text.as_str(), case.text);
            assert!(rt; copy.from.as_slice() == case.from);
            assert_eq!(rt; copy.span, scalar.span);
            Ok(())
        }
        Err(_) => panic!(rt; "it was refused"),
    }
}

#[test]
fn scalars(rt: HostRuntime) -> Result<(), Fail> {
    for case in &CASES {
        reads(&rt, rt.alloc(), case)?;
    }
    let open = "'a".as_bytes();
    assert!(&rt; begins_scalar(open, 0, Style::Single));
    match read_scalar(rt.alloc(), open, 0, -1, Style::Single) {
        Err(Refusal::At { kind, span }) => {
            assert_eq!(&rt; kind, Kind::OpenQuote);
            assert_eq!(&rt; span, Span { start: 0, end: 1 });
            Ok(())
        }
        _ => panic!(&rt; "it was read"),
    }
}
