//! The matchers of a selector.
ghost use Rattle.std.specs.Prelude.{◌≡◌, ◌++◌, ◌∷◌, [], IfOk};
ghost use Rattle.lf_parse.specs.Grammar as grammar;
ghost use Rattle.lf_parse.specs.reading.Machine as machine;
ghost use Rattle.lf_parse.specs.views.Values.{token_of, braces_of, step_of};

use crate::mark::{Mark, MarkedToken};
use crate::names::name_of;
use crate::step::ParserStep;
use lf_ast::{MatchOp, Matcher, Name};
use lf_base::{Memory, Seq, Span, Text};
use lf_lex::Sign;
use std::alloc::Global;

/// Where the matchers behind a `{` are.
#[derive(Drop)]
pub enum Braces {
    /// A label or the `}` comes.
    Next(Seq<Matcher>),
    /// A match sign comes.
    AfterLabel(Seq<Matcher>, Name),
    /// A string comes.
    AfterSign(Seq<Matcher>, Name, MatchOp),
    /// A `,` or the `}` comes.
    AfterMatcher(Seq<Matcher>),
}

/// Behind a `{`.
pub fn opened(alloc: Global) -> Result<Braces, Memory>
    ensures { IfOk result (λ b. braces_of b ≡ machine.NextMatcher []) }
{
    // Most selectors have one matcher.
    let matchers = Seq::with_capacity(alloc, 1)?;
    Ok(Braces::Next(matchers))
}

/// How a match sign compares.
fn match_of(sign: Sign) -> Option<MatchOp>
    ensures { result ≡ grammar.match_of sign }
{
    match sign {
        Sign::Is => Some(MatchOp::Equal),
        Sign::NotEqual => Some(MatchOp::NotEqual),
        Sign::Matches => Some(MatchOp::Matches),
        Sign::MatchesNot => Some(MatchOp::NotMatches),
        _ => None,
    }
}

/// A list with one more matcher, whose string is a token.
fn with_matcher(
    alloc: Global,
    matchers: Seq<Matcher>,
    label: Name,
    op: MatchOp,
    token: MarkedToken,
) -> Result<Seq<Matcher>, Memory>
    ensures { IfOk result (λ all. all ≡ matchers ++ grammar.matcher label op token.entry.text.now token.entry.span ∷ []) }
{
    let mut matchers = matchers;
    let value = Text::of(alloc, token.text)?;
    let Name { text, span } = label;
    matchers.push(Matcher {
        label: text,
        op,
        value,
        label_span: span,
        value_span: token.span,
    })?;
    Ok(matchers)
}

/// Behind a label.
fn compared(
    matchers: Seq<Matcher>,
    label: Name,
    op: Option<MatchOp>,
) -> ParserStep<Braces, (Seq<Matcher>, Span)>
    ensures { step_of braces_of (λ v. v) result ≡ machine.compared matchers label op }
{
    match op {
        Some(op) => ParserStep::More(Braces::AfterSign(matchers, label, op)),
        None => ParserStep::Reject,
    }
}

/// Takes the next token behind a `{`. At the end this gives the matchers and the span of the `}`.
pub fn braces_step(
    alloc: Global,
    braces: Braces,
    token: MarkedToken,
) -> Result<ParserStep<Braces, (Seq<Matcher>, Span)>, Memory>
    ensures { IfOk result (λ taken. step_of braces_of (λ v. v) taken ≡ machine.braces_step (braces_of braces) (token_of token.entry)) }
{
    match (braces, token.mark) {
        (Braces::Next(list), Mark::Word(_)) => {
            let label = name_of(alloc, token)?;
            Ok(ParserStep::More(Braces::AfterLabel(list, label)))
        }
        (Braces::Next(list), Mark::Sign(Sign::CloseBrace)) => {
            Ok(ParserStep::Done((list, token.span)))
        }
        (Braces::AfterLabel(list, label), Mark::Sign(sign)) => {
            Ok(compared(list, label, match_of(sign)))
        }
        (Braces::AfterSign(list, label, op), Mark::Str) => {
            let list = with_matcher(alloc, list, label, op, token)?;
            Ok(ParserStep::More(Braces::AfterMatcher(list)))
        }
        (Braces::AfterMatcher(list), Mark::Sign(Sign::Comma)) => {
            Ok(ParserStep::More(Braces::Next(list)))
        }
        (Braces::AfterMatcher(list), Mark::Sign(Sign::CloseBrace)) => {
            Ok(ParserStep::Done((list, token.span)))
        }
        _ => Ok(ParserStep::Reject),
    }
}
