//! The lines of a block scalar, joined by their line breaks or folded.
ghost use Rattle.std.specs.Prelude.{◌≡◌, ℕ, ◌+◌, ◌<◌, ◌≤◌, ◌^◌, ◌∷◌, ◌++◌, List, length, take, OnOk, IfOk, IfSome};
ghost use Rattle.lf_scalar.specs.Cells.{cells};
ghost use Rattle.lf_scalar.specs.Lines.{Line, line as line_with, lines_at};
ghost use Rattle.lf_scalar.specs.reading.Body.{contents, joins_of, between_last, literal_behind, folded_behind, joined_behind, FewBehind};

use crate::body::line_from;
use crate::builder::{ScalarBuilder, feed, fold_break};
use crate::lines::{is_blank_byte, past};
use lf_base::Memory;
use lf_base::bytes::before;

/// How the lines of a block scalar are joined.
#[derive(Clone, Copy, PartialEq, Eq, Debug)]
pub enum Joining {
    /// By their line breaks, as in a literal scalar.
    Literal,
    /// Folded.
    Folded,
}

/// The line behind which the next one is joined: in a literal scalar the last, in a folded one the last that isn't empty.
#[derive(Clone, Copy, PartialEq, Eq, Debug)]
pub struct LastLine {
    /// The offset of the line's line break.
    pub feed: u32,
    /// Whether the line begins with a blank.
    pub blank: bool,
    /// How many empty lines stand behind it so far.
    pub empty: usize,
}

/// Appends what stands between two lines that aren't empty. `blank` says whether the second begins with a blank.
fn push_between(builder: &mut ScalarBuilder, last: LastLine, blank: bool) -> Result<(), Memory>
    requires { last.empty < 2 ^ 32 }
    ensures { OnOk result (builder.new ≡ builder.old ++ between_last last blank) }
{
    if last.blank || blank {
        feed(builder, last.empty + 1, last.feed)
    } else {
        fold_break(builder, last.empty, last.feed)
    }
}

/// Appends what a line of a folded scalar gives, with what stands between it and the last that isn't empty. `text` is what follows the content indent.
fn push_folded_line(
    builder: &mut ScalarBuilder,
    last: Option<LastLine>,
    text: &[u8],
    at: u32,
    feed: u32,
) -> Result<Option<LastLine>, Memory>
    requires room { at + length text.now < 2 ^ 32 }
    requires few { IfSome last (λ o. o.empty < 2 ^ 32) }
    ensures value { IfOk result (λ after. (ls : List Line) → builder.new ++ folded_behind after ls ≡ builder.old ++ folded_behind last (line_with (cells at text.now) feed ∷ ls)) }
    ensures few { (n : ℕ) → FewBehind last n → IfOk result (λ after. FewBehind after (n + 1)) }
{
    if text.is_empty() {
        return match last {
            Some(last) => Ok(Some(LastLine {
                empty: last.empty + 1,
                ..last
            })),
            None => {
                builder.push(b'\n', feed)?;
                Ok(None)
            }
        };
    }
    let blank = is_blank_byte(text[0]);
    match last {
        Some(last) => push_between(builder, last, blank)?,
        None => {}
    }
    builder.copy(text, at)?;
    Ok(Some(LastLine {
        feed,
        blank,
        empty: 0,
    }))
}

/// Appends what a line of a literal scalar gives behind the line break of the line before, if there is one. `text` is what follows the content indent.
fn push_literal_line(
    builder: &mut ScalarBuilder,
    last: Option<LastLine>,
    text: &[u8],
    at: u32,
    feed: u32,
) -> Result<Option<LastLine>, Memory>
    requires room { at + length text.now < 2 ^ 32 }
    ensures value { IfOk result (λ after. (ls : List Line) → builder.new ++ literal_behind after ls ≡ builder.old ++ literal_behind last (line_with (cells at text.now) feed ∷ ls)) }
    ensures few { (n : ℕ) → IfOk result (λ after. FewBehind after n) }
{
    match last {
        Some(last) => builder.push(b'\n', last.feed)?,
        None => {}
    }
    builder.copy(text, at)?;
    Ok(Some(LastLine {
        feed,
        blank: false,
        empty: 0,
    }))
}

/// Appends what a line gives, with what stands between it and the lines before it. `text` is what follows the content indent.
fn push_line(
    builder: &mut ScalarBuilder,
    joining: Joining,
    last: Option<LastLine>,
    text: &[u8],
    at: u32,
    feed: u32,
) -> Result<Option<LastLine>, Memory>
    requires room { at + length text.now < 2 ^ 32 }
    requires few { IfSome last (λ o. o.empty < 2 ^ 32) }
    ensures value { IfOk result (λ after. (ls : List Line) → builder.new ++ joined_behind joining after ls ≡ builder.old ++ joined_behind joining last (line_with (cells at text.now) feed ∷ ls)) }
    ensures few { (n : ℕ) → FewBehind last n → IfOk result (λ after. FewBehind after (n + 1)) }
{
    match joining {
        Joining::Literal => push_literal_line(builder, last, text, at, feed),
        Joining::Folded => push_folded_line(builder, last, text, at, feed),
    }
}

/// Appends so many lines of a body, joined.
pub fn push_joined(
    builder: &mut ScalarBuilder,
    joining: Joining,
    body: &[u8],
    at: u32,
    count: usize,
    indent: usize,
) -> Result<(), Memory>
    requires room { at + length body.now + 2 < 2 ^ 32 }
    requires within { count ≤ length (lines_at at body.now) }
    ensures { OnOk result (builder.new ≡ builder.old ++ joins_of joining (contents indent (take count (lines_at at body.now)))) }
{
    let mut place: usize = 0;
    let mut last: Option<LastLine> = None;
    for _ in 0..count {
        let end = line_from(body, place);
        let line = before(past(body, place), end.text);
        let skipped = indent.min(line.len());
        let text_at = at + (place + skipped) as u32;
        let feed = at + (place + end.feed) as u32;
        last = push_line(builder, joining, last, past(line, skipped), text_at, feed)?;
        place += end.feed + 1;
    }
    Ok(())
}
