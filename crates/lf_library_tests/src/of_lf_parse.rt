//! Tests of lf_parse. Expressions of every sort and one for each refusal, with the bounds of depth at each of their two sides, are data:
//! `tests/vectors/expressions.jsonl` and `expressions-more.jsonl`, which `./test` runs.

use lf_base::{Kind, Refusal, Seq, Span};
use lf_lex::{Sign, Token, TokenKind};
use lf_parse::{one_reading, parse};
use std::test::Fail;

/// Two signs alone. The text has three bytes, so that its end is another place than theirs.
#[test]
fn the_end_of_the_text_is_told(rt: HostRuntime) -> Result<(), Fail> {
    one_reading();
    let mut tokens = Seq::new(rt.alloc());
    for start in 0..2 {
        let kind = TokenKind::Sign { sign: Sign::Minus };
        let span = Span {
            start,
            end: start + 1,
        };
        tokens.push(Token { kind, span })?;
    }
    let kind = Kind::Syntax;
    let span = Span { start: 3, end: 3 };
    let refusal = parse(rt.alloc(), &tokens, 3).err();
    assert_eq!(rt; refusal, Some(Refusal::At { kind, span }));
    Ok(())
}
