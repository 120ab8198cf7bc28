//! Plain scalars, over one line or several.
ghost use Rattle.std.specs.Prelude.{◌≡◌, ℕ, ◌+◌, ◌<◌, ◌≤◌, ◌^◌, true, None, length, IfOk, IfSome};
ghost use Rattle.lf_scalar.specs.declared.scalar.Style.TheVariants as style;
ghost use Rattle.lf_base.specs.Answers.{AnswersAs};
ghost use Rattle.lf_scalar.specs.Cells.{cell, cells, front, end_of};
ghost use Rattle.lf_scalar.specs.Lines.{lines_at, first_text};
ghost use Rattle.lf_scalar.specs.Folding.{fold};
ghost use Rattle.lf_scalar.specs.Plain.{is_commented, value_of};
ghost use Rattle.lf_scalar.specs.Scalars.{begins};
ghost use Rattle.lf_scalar.specs.views.Built.{built, TextAnswers};
ghost use Rattle.lf_scalar.specs.reading.Quoted.{line_at};
ghost use Rattle.lf_scalar.specs.reading.Plain.{IsOnward, tab_with as tab_with_of, HasRoom, Steps, plain_line, plain_behind, plain_lines_text, plain_of};

use crate::builder::{ScalarBuilder, fold_break};
use crate::lines::{blanks, has_tab, line_end, past, spaces};
use crate::null_text::is_null_text;
use crate::plain_line::push_plain_line;
use crate::raw_scalar::RawScalar;
use lf_base::bytes::before;
use lf_base::{Kind, Refusal, Span};
use std::alloc::Global;

/// What a line behind a plain scalar's line does.
#[derive(Clone, Copy, PartialEq, Eq, Debug)]
pub enum Onward {
    /// It is blank, so the next line decides.
    Blank,
    /// It is of the scalar.
    Continues,
    /// The scalar ends before it.
    Ends,
}

/// What a line behind a plain scalar's line does, where the scalar's lines have at least `above` spaces.
pub fn onward_of(line: &[u8], above: usize) -> Onward
    ensures { (at break_at : ℕ) → IsOnward above (line_at at line.now break_at) result }
{
    let skipped = blanks(line);
    if skipped >= line.len() {
        return Onward::Blank;
    }
    if line[skipped] == b'#' {
        return Onward::Ends;
    }
    if spaces(line) < above {
        Onward::Ends
    } else {
        Onward::Continues
    }
}

/// A line break that waits for the line that goes on.
#[derive(Clone, Copy, PartialEq, Eq, Debug)]
pub struct PendingPlainBreak {
    /// Where it stands.
    pub at: u32,
    /// How many blank lines stand behind it.
    pub blank: usize,
    /// Where the first of these begins that has a tab right behind its spaces.
    pub tab: Option<u32>,
}

/// Where the first line with a tab right behind its spaces begins, with a line more, which stands at an offset.
fn tab_with(tab: Option<u32>, line: &[u8], at: u32) -> Option<u32>
    requires room { at + 1 < 2 ^ 32 }
    requires tab { HasRoom tab }
    ensures value { (break_at : ℕ) → result ≡ tab_with_of tab (line_at at line.now break_at) }
    ensures room { HasRoom result }
{
    match tab {
        Some(place) => Some(place),
        None => { if has_tab(line) { Some(at) } else { None } }
    }
}

/// Appends what a line break becomes and what the line behind it gives, and tells whether that line ends in a comment.
pub fn push_continuation(
    builder: &mut ScalarBuilder,
    folded: PendingPlainBreak,
    line: &[u8],
    at: u32,
) -> Result<bool, Refusal>
    requires { at + length line.now < 2 ^ 32 }
    ensures text { (break_at : ℕ) → TextAnswers result builder.old builder.new (front (fold folded.at folded.blank) (plain_line (line_at at line.now break_at))) }
    ensures comment { IfOk result (λ commented. (break_at : ℕ) → is_commented (line_at at line.now break_at) ≡ commented) }
{
    match fold_break(builder, folded.blank, folded.at) {
        Ok(()) => push_plain_line(builder, line, at),
        Err(_) => Err(Refusal::Memory),
    }
}

/// Takes the line behind a line break, and tells the line break that waits then, none where the scalar has ended. `feed` is where the line's own line break stands.
pub fn push_step(
    builder: &mut ScalarBuilder,
    above: usize,
    folded: PendingPlainBreak,
    line: &[u8],
    at: u32,
    feed: u32,
) -> Result<Option<PendingPlainBreak>, Refusal>
    requires room { at + length line.now + 1 < 2 ^ 32 }
    requires few { folded.blank < 2 ^ 32 }
    requires tab { HasRoom folded.tab }
    ensures steps { Steps above folded (line_at at line.now feed) result builder.old builder.new }
    ensures few { IfOk result (λ o. IfSome o (λ next. next.blank ≤ folded.blank + 1)) }
    ensures tab { IfOk result (λ o. IfSome o (λ next. HasRoom next.tab)) }
{
    let tab = tab_with(folded.tab, line, at);
    match onward_of(line, above) {
        Onward::Blank => Ok(Some(PendingPlainBreak {
            at: folded.at,
            blank: folded.blank + 1,
            tab,
        })),
        Onward::Continues => match tab {
            Some(start) => Err(Refusal::At {
                kind: Kind::BadIndent,
                span: Span {
                    start,
                    end: start + 1,
                },
            }),
            None => match push_continuation(builder, folded, line, at) {
                Ok(true) => Ok(None),
                Ok(false) => Ok(Some(PendingPlainBreak {
                    at: feed,
                    blank: 0,
                    tab: None,
                })),
                Err(refusal) => Err(refusal),
            },
        },
        Onward::Ends => Ok(None),
    }
}

/// Appends what the lines behind a line break give, as far as the scalar goes on over them. `rest` is what stands behind the line break, `feed` where it stands.
pub fn push_behind(
    builder: &mut ScalarBuilder,
    above: usize,
    rest: &[u8],
    at: u32,
    feed: u32,
) -> Result<(), Refusal>
    requires { at + length rest.now ≤ 2 ^ 31 + 1 }
    ensures { TextAnswers result builder.old builder.new (plain_behind above feed 0 None (lines_at at rest.now)) }
{
    let mut folded = PendingPlainBreak {
        at: feed,
        blank: 0,
        tab: None,
    };
    let mut place: usize = 0;
    while place < rest.len() {
        let left = past(rest, place);
        let end = line_end(left);
        let start = at + place as u32;
        let text = before(left, end.text);
        match push_step(builder, above, folded, text, start, start + end.feed as u32) {
            Ok(Some(next)) => folded = next,
            Ok(None) => return Ok(()),
            Err(refusal) => return Err(refusal),
        }
        place += end.feed + 1;
    }
    Ok(())
}

/// Appends what the lines of a plain scalar give. `rest` begins with the scalar.
pub fn push_plain(
    builder: &mut ScalarBuilder,
    above: usize,
    rest: &[u8],
    at: u32,
) -> Result<(), Refusal>
    requires some { 0 < length rest.now }
    requires room { at + length rest.now ≤ 2 ^ 31 }
    ensures { TextAnswers result builder.old builder.new (plain_lines_text above (lines_at at rest.now)) }
{
    let end = line_end(rest);
    match push_plain_line(builder, before(rest, end.text), at) {
        Ok(true) => Ok(()),
        Ok(false) => {
            let feed = at + end.feed as u32;
            push_behind(builder, above, past(rest, end.feed + 1), feed + 1, feed)
        }
        Err(refusal) => Err(refusal),
    }
}

/// The scalar whose lines gave a text. It begins at an offset and ends at most at another.
fn with_text(builder: ScalarBuilder, at: u32, most: u32) -> RawScalar
    requires { end_of at builder ≤ most }
    ensures { (byte : ℕ) → built result ≡ value_of (cell byte at) builder }
{
    let end = builder.end(at, most);
    let mut builder = builder;
    if is_null_text(builder.bytes()) {
        builder.truncate(0);
    }
    RawScalar {
        builder,
        end,
        span: Span { start: at, end },
    }
}

/// Reads a plain scalar. `rest` begins with it and reaches to the file's end, and stands at an offset of the file. Where the scalar goes on over further lines, these have
/// at least `above` spaces.
pub fn read_plain(alloc: Global, rest: &[u8], at: u32, above: usize) -> Result<RawScalar, Refusal>
    requires room { at + length rest.now ≤ 2 ^ 31 }
    requires begins { begins style.Plain (first_text (lines_at at rest.now)) ≡ true }
    ensures gives { AnswersAs built result (plain_of above (at + length rest.now) (cells at rest.now)) }
{
    let mut builder = ScalarBuilder::new(alloc);
    match push_plain(&mut builder, above, rest, at) {
        Ok(()) => Ok(with_text(builder, at, at + rest.len() as u32)),
        Err(refusal) => Err(refusal),
    }
}
