//! Offsets and times behind a selector or a subquery.
ghost use Rattle.std.specs.Prelude.{◌≡◌, ◌∷◌, ◌++◌, [], IfOk};
ghost use Rattle.lf_parse.specs.Grammar as grammar;
ghost use Rattle.lf_parse.specs.reading.Machine as machine;
ghost use Rattle.lf_parse.specs.views.Values.{token_of, sign_byte, mod_with_end, mod_stage_of, step_of};

use crate::class::{RangeEnd, WordClass};
use crate::mark::{Mark, MarkedToken};
use crate::step::ParserStep;
use lf_base::{Memory, Text};
use lf_lex::Sign;
use std::alloc::Global;

/// An offset or a time, as its text.
#[derive(Drop)]
pub enum Mod {
    Offset(Text),
    At(Text),
}

/// The sign of a time.
#[derive(Clone, Copy, Drop)]
pub enum TimeSign {
    Plus,
    Minus,
}

/// Where an offset or a time is.
#[derive(Clone, Copy, Drop)]
pub enum ModStage {
    AfterOffset,
    AfterOffsetMinus,
    AfterAt,
    /// Behind the sign of a time.
    AfterAtSign(TimeSign),
    /// Behind `start` or `end`, and behind the `(` there.
    AfterEdge(RangeEnd),
    InEdge(RangeEnd),
}

/// A text behind a sign.
fn signed(alloc: Global, sign: &str, text: &str) -> Result<Text, Memory>
    ensures { IfOk result (λ t. t ≡ sign.now ++ text.now) }
{
    let mut signed = Text::of(alloc, sign)?;
    signed.push(text)?;
    Ok(signed)
}

/// `start()` or `end()`, as the tree has them.
fn edge_text(edge: RangeEnd) -> &'static str
    ensures { result.now ≡ grammar.edge_text edge }
{
    match edge {
        RangeEnd::Start => "start()",
        RangeEnd::End => "end()",
    }
}

/// The sign as it is written.
fn sign_text(sign: TimeSign) -> &'static str
    ensures { result.now ≡ sign_byte sign ∷ [] }
{
    match sign {
        TimeSign::Plus => "+",
        TimeSign::Minus => "-",
    }
}

/// Takes the next token of an offset or a time. At the end this gives its text and the offset in the source where it ends.
pub fn mod_step(
    alloc: Global,
    stage: ModStage,
    token: MarkedToken,
) -> Result<ParserStep<ModStage, (Mod, u32)>, Memory>
    ensures { IfOk result (λ taken. step_of mod_stage_of mod_with_end taken ≡ machine.mod_step (mod_stage_of stage) (token_of token.entry)) }
{
    let end = token.span.end;
    match (stage, token.mark) {
        (ModStage::AfterOffset, Mark::Duration) => {
            let text = Text::of(alloc, token.text)?;
            Ok(ParserStep::Done((Mod::Offset(text), end)))
        }
        (ModStage::AfterOffset, Mark::Sign(Sign::Minus)) => Ok(ParserStep::More(
            ModStage::AfterOffsetMinus,
        )),
        (ModStage::AfterOffsetMinus, Mark::Duration) => {
            let text = signed(alloc, "-", token.text)?;
            Ok(ParserStep::Done((Mod::Offset(text), end)))
        }
        (ModStage::AfterAt, Mark::Number) => {
            let text = Text::of(alloc, token.text)?;
            Ok(ParserStep::Done((Mod::At(text), end)))
        }
        (ModStage::AfterAt, Mark::Sign(Sign::Plus)) => {
            Ok(ParserStep::More(ModStage::AfterAtSign(TimeSign::Plus)))
        }
        (ModStage::AfterAt, Mark::Sign(Sign::Minus)) => {
            Ok(ParserStep::More(ModStage::AfterAtSign(TimeSign::Minus)))
        }
        (ModStage::AfterAt, Mark::Word(WordClass::Edge(edge))) => Ok(ParserStep::More(
            ModStage::AfterEdge(edge),
        )),
        (ModStage::AfterAtSign(sign), Mark::Number) => {
            let text = signed(alloc, sign_text(sign), token.text)?;
            Ok(ParserStep::Done((Mod::At(text), end)))
        }
        (ModStage::AfterEdge(edge), Mark::Sign(Sign::OpenParen)) => {
            Ok(ParserStep::More(ModStage::InEdge(edge)))
        }
        (ModStage::InEdge(edge), Mark::Sign(Sign::CloseParen)) => {
            let text = Text::of(alloc, edge_text(edge))?;
            Ok(ParserStep::Done((Mod::At(text), end)))
        }
        _ => Ok(ParserStep::Reject),
    }
}
