//! Plain scalars of flow collections, over one line or several.
ghost use Rattle.std.specs.Prelude.{◌≡◌, ◌∷◌, List, IfSome, ℕ, ◌+◌, ◌<◌, ◌≤◌, ◌^◌, length, IfOk};
ghost use Rattle.lf_scalar.specs.Cells.{cells, front};
ghost use Rattle.lf_scalar.specs.Folding.{fold};
ghost use Rattle.lf_scalar.specs.Lines.{line as line_with, lines_at};
ghost use Rattle.lf_scalar.specs.reading.Quoted.{line_at};
ghost use Rattle.lf_scalar.specs.views.Built.{TextAnswers};
ghost use Rattle.lf_yaml.specs.Flow.{line_on, left_on, goes_on as goes_on_of, is_spaces as is_spaces_of};
ghost use Rattle.lf_yaml.specs.Rows.{ContentRow, content_row};
ghost use Rattle.lf_yaml.specs.views.Shown.{shown};
ghost use Rattle.lf_yaml.specs.reading.Trees.{plain_line, plain_behind};
ghost use Rattle.lf_yaml.specs.reading.FlowLines.{IsLeft, IsFew, Steps, FoldsAs};

use crate::flow_text::{find_colon, flow_text_len};
use crate::head::{byte_fault, is_mark};
use crate::keys::is_flow_sign;
use crate::row::ContentLine;
use crate::rows::line_row;
use lf_base::bytes::before;
use lf_base::{Kind, Refusal};
use lf_scalar::builder::{ScalarBuilder, fold_break};
use lf_scalar::lines::{blanks, line_end, past, spaces};

/// Where something other than blanks is left of a line behind the text that it gives to a plain scalar, if something is.
pub fn line_left(line: &[u8], at: u32) -> Option<u32>
    requires { at + length line.now ≤ 2 ^ 31 }
    ensures left { (break_at : ℕ) → IsLeft (line_at at line.now break_at) result }
    ensures order { IfSome result (λ after. at ≤ after) }
{
    let skipped = blanks(line);
    let text = past(line, skipped);
    let len = flow_text_len(text);
    let left = past(text, len);
    if blanks(left) == left.len() {
        None
    } else {
        Some(at + (skipped + len) as u32)
    }
}

/// Appends what a line of a plain scalar gives, and tells where something other than blanks is left of it. It is refused where it has a `:` before a blank or its end.
pub fn push_line(builder: &mut ScalarBuilder, line: &[u8], at: u32) -> Result<Option<u32>, Refusal>
    requires { at + length line.now ≤ 2 ^ 31 }
    ensures text { (break_at : ℕ) → TextAnswers result builder.old builder.new (plain_line (line_at at line.now break_at)) }
    ensures left { IfOk result (λ left. (break_at : ℕ) → IsLeft (line_at at line.now break_at) left) }
{
    let skipped = blanks(line);
    let text = past(line, skipped);
    let start = at + skipped as u32;
    let len = flow_text_len(text);
    match find_colon(text, len) {
        Some(place) => Err(byte_fault(Kind::NotANode, start + place as u32)),
        None => match builder.copy(before(text, len), start) {
            Ok(()) => Ok(line_left(line, at)),
            Err(_) => Err(Refusal::Memory),
        },
    }
}

/// Whether a line has spaces alone.
fn is_spaces(line: &[u8]) -> bool
    ensures { (at feed : ℕ) → result ≡ is_spaces_of (line_with (cells at line.now) feed) }
{
    match past(line, spaces(line)) {
        [] => true,
        [_, ..] => false,
    }
}

/// Whether a row goes on with a plain scalar: it begins with no tab and no sign of flow collections, and is no mark.
fn row_goes_on(row: ContentLine<'_>) -> bool
    ensures { (rows : List ContentRow) → result ≡ goes_on_of (shown row.entry ∷ rows) }
{
    if row.text[0] == b'\t' {
        return false;
    }
    if is_flow_sign(row.text[0]) {
        return false;
    }
    !is_mark(row)
}

/// Whether a line that stands at an offset goes on with a plain scalar.
fn goes_on(line: &[u8], at: u32) -> bool
    requires { at + length line.now ≤ 2 ^ 31 }
    ensures { (feed : ℕ) → result ≡ goes_on_of (content_row (line_with (cells at line.now) feed)) }
{
    match line_row(line, at) {
        Some(row) => row_goes_on(row),
        None => false,
    }
}

/// A line break that waits for the line that goes on.
#[derive(Clone, Copy)]
pub struct PendingFlowBreak {
    /// Where it stands.
    pub at: u32,
    /// How many lines of spaces stand behind it.
    pub blank: usize,
}

/// What a line behind a line break does.
pub enum LineStep {
    /// A line break waits behind it.
    On { folded: PendingFlowBreak },
    /// The scalar ends, and the collection is read on at an offset.
    Ends { after: u32 },
}

/// Appends what a line break becomes and what the line behind it gives.
fn push_next(
    builder: &mut ScalarBuilder,
    folded: PendingFlowBreak,
    line: &[u8],
    at: u32,
) -> Result<Option<u32>, Refusal>
    requires { at + length line.now ≤ 2 ^ 31 }
    ensures text { (break_at : ℕ) → TextAnswers result builder.old builder.new (front (fold folded.at folded.blank) (plain_line (line_at at line.now break_at))) }
    ensures left { IfOk result (λ left. (break_at : ℕ) → IsLeft (line_at at line.now break_at) left) }
{
    match fold_break(builder, folded.blank, folded.at) {
        Ok(()) => push_line(builder, line, at),
        Err(_) => Err(Refusal::Memory),
    }
}

/// Takes the line behind a line break. `feed` is where the line's own line break stands.
pub fn push_step(
    builder: &mut ScalarBuilder,
    folded: PendingFlowBreak,
    line: &[u8],
    at: u32,
    feed: u32,
) -> Result<LineStep, Refusal>
    requires room { at + length line.now ≤ 2 ^ 31 }
    requires few { folded.blank < 2 ^ 32 }
    ensures steps { Steps folded (line_at at line.now feed) result builder.old builder.new }
    ensures few { IfOk result (λ step. IsFew folded.blank step) }
{
    if is_spaces(line) {
        return Ok(LineStep::On {
            folded: PendingFlowBreak {
                at: folded.at,
                blank: folded.blank + 1,
            },
        });
    }
    if !goes_on(line, at) {
        return Ok(LineStep::Ends { after: folded.at });
    }
    match push_next(builder, folded, line, at) {
        Ok(Some(after)) => Ok(LineStep::Ends { after }),
        Ok(None) => Ok(LineStep::On {
            folded: PendingFlowBreak { at: feed, blank: 0 },
        }),
        Err(refusal) => Err(refusal),
    }
}

/// Appends what the lines behind a line break give, as far as the scalar goes on over them, and tells where the collection is read on. `rest` is what stands behind the line
/// break, `feed` where it stands.
pub fn push_behind(
    builder: &mut ScalarBuilder,
    rest: &[u8],
    at: u32,
    feed: u32,
) -> Result<u32, Refusal>
    requires room { at + length rest.now ≤ 2 ^ 31 + 1 }
    requires lines { 0 < length rest.now → at + length rest.now ≤ 2 ^ 31 }
    ensures { FoldsAs result builder.old builder.new (plain_behind feed 0 (lines_at at rest.now)) }
{
    let mut folded = PendingFlowBreak { at: feed, blank: 0 };
    let mut place: usize = 0;
    while place < rest.len() {
        let left = past(rest, place);
        let end = line_end(left);
        let start = at + place as u32;
        let text = before(left, end.text);
        match push_step(builder, folded, text, start, start + end.feed as u32) {
            Ok(LineStep::On { folded: next }) => folded = next,
            Ok(LineStep::Ends { after }) => return Ok(after),
            Err(refusal) => return Err(refusal),
        }
        place += end.feed + 1;
    }
    Ok(folded.at)
}

/// Where a collection is read on behind the text that a part gives to a plain scalar on its line.
pub fn text_left(bytes: &[u8], part: ContentLine<'_>) -> u32
    requires room { length bytes.now ≤ 2 ^ 31 }
    requires within { part.at < length bytes.now }
    requires rest { cells part.at part.text.now ≡ (line_on bytes.now part.at).text }
    ensures after { result ≡ left_on (line_on bytes.now part.entry.at) }
    ensures order { part.entry.at ≤ result }
{
    match line_left(part.text, part.at) {
        Some(after) => after,
        None => part.at + line_end(past(bytes, part.at as usize)).feed as u32,
    }
}
