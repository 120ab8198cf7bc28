//! That calls of lf_lex succeed. Each sort of token and of refusal stands among the cases of tests/vectors/.
ghost use Rattle.std.specs.Prelude.{IsTrue};
ghost use Rattle.std.specs.List.Sorted.{IsNonDecreasing};

use lf_base::{Kind, Memory, Refusal, Seq, Span, Text};
use lf_lex::{Token, TokenKind, is_duration, lex};
use std::alloc::Global;
use std::process::Abort;
use std::test::Fail;

/// Whether no number is below the one before it.
pub fn rises(from: &[u32]) -> bool
    ensures { IsTrue result → IsNonDecreasing from.now }
{
    for i in 1..from.len() {
        if from[i] < from[i - 1] {
            return false;
        }
    }
    true
}

/// The tokens of a text whose bytes stand at these offsets.
fn read(
    rt: &impl Abort,
    alloc: Global,
    text: &str,
    from: &[u32],
) -> Result<Result<Seq<Token>, Refusal>, Memory> {
    let text = Text::of(alloc, text)?;
    let from = Seq::of(alloc, from)?;
    assert_eq!(rt; from.len(), text.len().saturating_add(1));
    assert!(rt; rises(from.as_slice()));
    Ok(lex(alloc, &text, &from))
}

/// The source has more than the text between the two words, as where YAML folds lines.
#[test]
fn tokens(rt: HostRuntime) -> Result<(), Fail> {
    match read(&rt, rt.alloc(), "ab cd", &[10, 11, 12, 17, 18, 19])? {
        Ok(tokens) => {
            assert_eq!(rt; tokens.len(), 2);
            let word = tokens.get(1);
            assert_eq!(rt; word.span, Span { start: 17, end: 19 });
            match &word.kind {
                TokenKind::Word { text } => assert_eq!(rt; text.as_str(), "cd"),
                _ => assert!(rt; false, "no word"),
            }
        }
        Err(_) => assert!(rt; false, "refused"),
    }
    Ok(())
}

#[test]
fn refusals(rt: HostRuntime) -> Result<(), Fail> {
    match read(&rt, rt.alloc(), "a \"b", &[3, 4, 5, 6, 7])? {
        Ok(_) => assert!(rt; false, "read"),
        Err(refusal) => {
            let span = Span { start: 5, end: 6 };
            let kind = Kind::OpenString;
            assert_eq!(rt; refusal, Refusal::At { kind, span });
        }
    }
    Ok(())
}

#[test]
fn durations(rt: HostRuntime) {
    assert!(rt; is_duration(b"1h30m"));
    assert!(rt; !is_duration(b"30m1h"));
}
