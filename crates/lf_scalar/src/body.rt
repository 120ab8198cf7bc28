//! The body of a block scalar: its content indent, and which of its lines have a text.
ghost use Rattle.std.specs.Prelude.{◌≡◌, ◌⊎◌, ℕ, ◌+◌, ◌<◌, ◌≤◌, ◌^◌, ◌&&◌, leb, nat_lt, [], ◌∷◌, length, take, drop};
ghost use Rattle.lf_base.specs.declared.kind.Kind.TheVariants.{BadIndent};
ghost use Rattle.lf_base.specs.Faults.{fault as fault_of, span as span_of};
ghost use Rattle.lf_scalar.specs.Cells.{cells};
ghost use Rattle.lf_scalar.specs.Lines.{line as line_with, lines_at};
ghost use Rattle.lf_scalar.specs.Plain.{has_tab as has_tab_of};
ghost use Rattle.lf_scalar.specs.Block.{told_indent as indent_told, content_indent as indent_of_content, line_end as line_end_of};
ghost use Rattle.lf_scalar.specs.reading.Body.{FindsBody, TellsRole, break_of, body_with};
ghost use Rattle.lf_scalar.specs.views.Built.{refused};

use crate::lines::{LineEnd, has_tab, line_end, past, spaces};
use lf_base::bytes::before;
use lf_base::{Kind, Refusal, Span};

/// Where the line ends that begins at a place of some bytes, counted from that place.
pub fn line_from(bytes: &[u8], place: usize) -> LineEnd
    requires { place < length bytes.now }
    ensures within { (result.text ≤ result.feed) × (place + result.feed ≤ length bytes.now) }
    ensures first { (at : ℕ) → lines_at (at + place) (drop place bytes.now) ≡ line_with (cells (at + place) (take result.text (drop place bytes.now))) (at + (place + result.feed)) ∷ lines_at (at + (place + (result.feed + 1))) (drop (place + (result.feed + 1)) bytes.now) }
{
    line_end(past(bytes, place))
}

/// What the lines of a body tell of its content indent: the indent of the first with a byte other than a space, if it has at least `above` spaces. Else the length of the
/// longest line before it, and at least `above`.
pub fn told_indent(body: &[u8], above: usize) -> usize
    requires { above ≤ 2 ^ 31 }
    ensures value { (at : ℕ) → result ≡ indent_told above above (lines_at at body.now) }
    ensures within { (result ≤ length body.now) ⊎ (result ≤ above) }
{
    let mut longest = above;
    let mut place: usize = 0;
    while place < body.len() {
        let end = line_from(body, place);
        let indent = spaces(before(past(body, place), end.text));
        if indent < end.text {
            return if indent < above { longest } else { indent };
        }
        longest = longest.max(end.text);
        place += end.feed + 1;
    }
    longest
}

/// The content indent of a body: by a digit counted from the parent's, else as its lines tell.
pub fn content_indent(above: usize, digit: Option<u8>, body: &[u8]) -> usize
    requires { above ≤ 2 ^ 31 }
    ensures { (at : ℕ) → result ≡ indent_of_content above digit (lines_at at body.now) }
{
    match digit {
        Some(digit) => above.saturating_sub(1) + usize::from(digit),
        None => told_indent(body, above),
    }
}

/// What a line is to a body.
#[derive(Clone, Copy, PartialEq, Eq, Debug)]
pub enum Role {
    /// It ends the body before it.
    Behind,
    /// It has spaces alone.
    Spaces,
    /// It has a byte other than a space, and is indented enough.
    Text,
}

/// What a line, which stands at an offset, is to a body with a content indent, or what breaks the body there. `leads` is true up to the line that tells the indent.
pub fn role_of(
    line: &[u8],
    at: u32,
    leads: bool,
    above: usize,
    indent: usize,
) -> Result<Role, Refusal>
    requires room { at + length line.now + 1 < 2 ^ 32 }
    ensures { (feed : ℕ) → TellsRole leads above indent (line_with (cells at line.now) feed) result }
{
    let spaces = spaces(line);
    if spaces >= line.len() {
        let end = at + line.len() as u32;
        return if is_long(leads, line, indent) {
            Err(bad_indent(end, end))
        } else {
            Ok(Role::Spaces)
        };
    }
    if spaces >= indent {
        return if leads_with_tab(leads, line) {
            Err(bad_indent(at, at + 1))
        } else {
            Ok(Role::Text)
        };
    }
    if stands_with_tab(spaces, above, line) {
        Err(bad_indent(at, at + 1))
    } else {
        Ok(Role::Behind)
    }
}

/// Whether a line of spaces alone, which leads, is longer than the content indent.
fn is_long(leads: bool, line: &[u8], indent: usize) -> bool
    ensures { result ≡ (leads && nat_lt indent (length line.now)) }
{
    leads && line.len() > indent
}

/// Whether a line that leads has a tab right behind its spaces.
fn leads_with_tab(leads: bool, line: &[u8]) -> bool
    ensures { (at feed : ℕ) → result ≡ (leads && has_tab_of (line_with (cells at line.now) feed)) }
{
    leads && has_tab(line)
}

/// Whether a line with so many spaces, which are enough, has a tab right behind them.
fn stands_with_tab(spaces: usize, above: usize, line: &[u8]) -> bool
    ensures { (at feed : ℕ) → result ≡ (leb above spaces && has_tab_of (line_with (cells at line.now) feed)) }
{
    spaces >= above && has_tab(line)
}

/// The refusal of an indent.
fn bad_indent(start: u32, end: u32) -> Refusal
    ensures { result ≡ refused (fault_of BadIndent (span_of start end)) }
{
    Refusal::At {
        kind: Kind::BadIndent,
        span: Span { start, end },
    }
}

/// What is found of the lines of a body.
#[derive(Clone, Copy, PartialEq, Eq, Debug)]
pub struct BlockBody {
    /// How many lines there are up to the last that isn't empty.
    pub full: usize,
    /// The offset of the last one's line break, if there is one.
    pub last: Option<u32>,
    /// How many bytes these lines take, with their line breaks.
    pub behind: usize,
    /// How many empty lines stand behind them.
    pub empty: usize,
}

/// Finds the lines of a body that stands at an offset, or what breaks it. `leads` says that its lines tell the content indent.
pub fn find_body(
    bytes: &[u8],
    at: u32,
    leads: bool,
    above: usize,
    indent: usize,
) -> Result<BlockBody, Refusal>
    requires { at + length bytes.now + 2 < 2 ^ 32 }
    ensures { FindsBody leads above indent at bytes.now result }
{
    let mut found = BlockBody {
        full: 0,
        last: None,
        behind: 0,
        empty: 0,
    };
    let mut leading = leads;
    let mut place: usize = 0;
    while place < bytes.len() {
        let end = line_from(bytes, place);
        let line = before(past(bytes, place), end.text);
        let role = match role_of(line, at + place as u32, leading, above, indent) {
            Ok(role) => role,
            Err(refusal) => return Err(refusal),
        };
        match role {
            Role::Behind => break,
            Role::Spaces => {}
            Role::Text => leading = false,
        }
        let feed = place + end.feed;
        found = with_line(found, end.text > indent, feed, break_at(bytes, at, feed));
        place += end.feed + 1;
    }
    Ok(found)
}

/// The offset of the line break at a place of some bytes, none at their end.
pub fn break_at(bytes: &[u8], at: u32, feed: usize) -> Option<u32>
    requires { at + feed < 2 ^ 32 }
    ensures { break_of result ≡ line_end_of (at + length bytes.now) (line_with [] (at + feed)) }
{
    if feed < bytes.len() {
        Some(at + feed as u32)
    } else {
        None
    }
}

/// What is found with a line more, whose line break stands at a place, if it has one.
fn with_line(found: BlockBody, is_full: bool, feed: usize, last: Option<u32>) -> BlockBody
    requires room { feed < 2 ^ 32 }
    requires few { found.full + found.empty < 2 ^ 32 }
    ensures { result ≡ body_with found is_full feed last }
{
    if is_full {
        BlockBody {
            full: found.full + found.empty + 1,
            last,
            behind: feed + 1,
            empty: 0,
        }
    } else {
        BlockBody {
            empty: found.empty + 1,
            ..found
        }
    }
}
