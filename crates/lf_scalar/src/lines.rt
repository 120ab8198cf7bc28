//! The lines of a source: where they end, which blanks they begin and end with, and what is wrong behind a scalar. It is public for the crates of this
//! repository that read lines beside scalars; who reads scalars alone calls `read_scalar`.
//!
//! Every function takes bytes as they stand in the source, and its places count bytes from 0, in what it is passed. An offset `at` is that of the
//! first of these bytes in the source.
ghost use Rattle.std.specs.Prelude.{false, ◌≡◌, ℕ, ◌+◌, ◌<◌, ◌≤◌, ◌^◌, ◌∷◌, length, get_or, take, drop, eqb, IfSome, option_map};
ghost use Rattle.lf_scalar.specs.Cells.{cell, cells, character_fault as at_cell};
ghost use Rattle.lf_scalar.specs.views.Built.{refused};
ghost use Rattle.lf_scalar.specs.reading.Quoted.{wrong_behind as first_wrong};
ghost use Rattle.lf_scalar.specs.Folding.{trimmed};
ghost use Rattle.lf_scalar.specs.Plain.{has_tab as has_tab_of};
ghost use Rattle.std.specs.List.{list_all};
ghost use Rattle.std.specs.Str.{continuation_len};
ghost use Rattle.lf_scalar.specs.Lines.{line as line_with, lines_at, IsTextBefore, indent_of, is_blank, after_blanks, after_spaces};

use lf_base::{Kind, Refusal, Span};

/// Where the first line of some bytes ends, in bytes from the first of them.
#[derive(Clone, Copy, PartialEq, Eq, Debug)]
pub struct LineEnd {
    /// How many bytes the line has without its end.
    pub text: usize,
    /// The place of its line feed, or of the end of the bytes where it has none.
    pub feed: usize,
}

/// Where the first line of `rest` ends, at a line feed or with `rest`. A carriage return before the line feed is part of the end.
pub fn line_end(rest: &[u8]) -> LineEnd
    ensures within { (result.text ≤ result.feed) × (result.feed ≤ length rest.now) }
    ensures feed { result.feed < length rest.now → get_or rest.now result.feed 0 ≡ 10 }
    ensures first { (at : ℕ) → 0 < length rest.now → lines_at at rest.now ≡ line_with (cells at (take result.text rest.now)) (at + result.feed) ∷ lines_at (at + (result.feed + 1)) (drop (result.feed + 1) rest.now) }
{
    for (i, byte) in rest.iter().enumerate() {
        if *byte == b'\n' {
            let text = text_before(rest, i);
            return LineEnd { text, feed: i };
        }
    }
    LineEnd {
        text: rest.len(),
        feed: rest.len(),
    }
}

/// How many bytes stand before a line feed without a carriage return at their end.
fn text_before(rest: &[u8], feed: usize) -> usize
    requires { feed < length rest.now }
    ensures { IsTextBefore rest.now feed result }
{
    if feed > 0 && rest[feed - 1] == b'\r' {
        feed - 1
    } else {
        feed
    }
}

/// How many spaces a line begins with; a tab is none.
pub fn spaces(line: &[u8]) -> usize
    ensures count { (at : ℕ) → result ≡ indent_of (cells at line.now) }
    ensures only { (k : ℕ) → k < result → get_or line.now k 0 ≡ 32 }
    ensures after { (at : ℕ) → after_spaces (cells at line.now) ≡ cells (at + result) (drop result line.now) }
    ensures within { result ≤ length line.now }
{
    for (i, byte) in line.iter().enumerate() {
        if *byte != b' ' {
            return i;
        }
    }
    line.len()
}

/// Whether a tab stands right behind the spaces that a line begins with.
pub fn has_tab(line: &[u8]) -> bool
    ensures { (at feed : ℕ) → result ≡ has_tab_of (line_with (cells at line.now) feed) }
{
    match past(line, spaces(line)) {
        [b'\t', ..] => true,
        [_, ..] => false,
        [] => false,
    }
}

/// The bytes from a place on, none where it lies at the end or behind it.
pub fn past(bytes: &[u8], place: usize) -> &[u8]
    ensures { result.now ≡ drop place bytes.now }
{
    if place < bytes.len() {
        bytes.split_at(place).1
    } else {
        &[]
    }
}

/// Whether a byte is a space or a tab.
pub fn is_blank_byte(byte: u8) -> bool
    ensures { result ≡ is_blank (cell byte 0) }
{
    byte == b' ' || byte == b'\t'
}

/// How many blanks, spaces and tabs, a line begins with. It is blank where these are all its bytes.
pub fn blanks(line: &[u8]) -> usize
    ensures within { result ≤ length line.now }
    ensures after { (at : ℕ) → after_blanks (cells at line.now) ≡ cells (at + result) (drop result line.now) }
    ensures blank { (at : ℕ) → list_all is_blank (cells at line.now) ≡ eqb result (length line.now) }
{
    for (i, byte) in line.iter().enumerate() {
        if !is_blank_byte(*byte) {
            return i;
        }
    }
    line.len()
}

/// How many bytes a text has without the blanks, spaces and tabs, at its end.
pub fn trimmed_len(text: &[u8]) -> usize
    ensures within { result ≤ length text.now }
    ensures text { (at : ℕ) → trimmed is_blank (cells at text.now) ≡ cells at (take result text.now) }
    ensures ascii { result < length text.now → get_or text.now result 0 < 128 }
{
    let mut len = text.len();
    while len > 0 {
        if !is_blank_byte(text[len - 1]) {
            break;
        }
        len -= 1;
    }
    len
}

/// How many bytes the character takes, in UTF-8, that begins with this byte: 1 to 4.
pub fn char_len(byte: u8) -> u32
    ensures value { result ≡ 1 + continuation_len byte }
    ensures small { result ≤ 4 }
{
    match byte {
        0..=127 => 1,
        128..=223 => 2,
        224..=239 => 3,
        _ => 4,
    }
}

/// The place of the first byte that can't stand behind a scalar on its line, where blanks and a comment may, none where all can. `line` is what
/// stands behind the scalar, without the line's end.
pub fn wrong_behind(line: &[u8]) -> Option<usize>
    ensures within { IfSome result (λ k. k < length line.now) }
    ensures value { (at : ℕ) → option_map (λ k. cell (get_or line.now k 0) (at + k)) result ≡ first_wrong false (cells at line.now) }
{
    let skipped = blanks(line);
    if skipped >= line.len() {
        return None;
    }
    if skipped > 0 && line[skipped] == b'#' {
        return None;
    }
    Some(skipped)
}

/// The refusal whose span is the character at the place `k` of a line that stands at the offset `at` of its source.
pub fn fault_at(kind: Kind, line: &[u8], k: usize, at: u32) -> Refusal
    requires within { k < length line.now }
    requires room { at + length line.now + 4 < 2 ^ 32 }
    ensures { result ≡ refused (at_cell kind (cell (get_or line.now k 0) (at + k))) }
{
    let place = at + k as u32;
    Refusal::At {
        kind,
        span: Span {
            start: place,
            end: place + char_len(line[k]),
        },
    }
}
