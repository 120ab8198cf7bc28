//! The rows of a file, one after the other.
ghost use Rattle.std.specs.Prelude.{◌≡◌, ℕ, ◌+◌, ◌<◌, ◌≤◌, ◌^◌, ◌∷◌, ◌-◌, [], length, get_or, take, drop, MatchOption, ◌++◌, IfSome};
ghost use Rattle.std.specs.Str.{IsCharBoundary};
ghost use Rattle.lf_scalar.specs.Cells.{cells};
ghost use Rattle.lf_scalar.specs.Lines.{line};
ghost use Rattle.lf_yaml.specs.Flow.{line_on, lines_below};
ghost use Rattle.lf_yaml.specs.Rows.{content_row, rows_from, rows_of};
ghost use Rattle.lf_yaml.specs.views.Shown.{shown};
ghost use Rattle.lf_yaml.specs.views.Cursor.{rows_after};

use crate::row::ContentLine;
use crate::source::YamlSource;
use lf_base::bytes::before;
use lf_scalar::lines::{line_end, past, spaces};

/// The row of a line that stands at an offset, none where the line has spaces alone or is a comment line.
pub fn line_row(text: &[u8], at: u32) -> Option<ContentLine<'_>>
    requires room { at + length text.now ≤ 2 ^ 31 }
    ensures row { (feed : ℕ) → MatchOption result (content_row (line (cells at text.entry.now) feed) ≡ []) (λ r. content_row (line (cells at text.entry.now) feed) ≡ shown r ∷ []) }
    ensures spaces { IfSome result (λ r. at < r.at → get_or text.entry.now (r.at - at - 1) 0 ≡ 32) }
    ensures place { IfSome result (λ r. (at ≤ r.at) × (r.text.now ≡ drop (r.at - at) text.entry.now)) }
{
    let indent = spaces(text);
    let rest = past(text, indent);
    match rest {
        [] => None,
        [b'#', ..] => None,
        [_, ..] => Some(ContentLine {
            begin: at,
            at: at + indent as u32,
            text: rest,
        }),
    }
}

/// A line of a file, and where the line behind it begins.
#[derive(Clone, Copy)]
pub struct LineOf<'a> {
    /// The line's bytes without its end.
    pub text: &'a [u8],
    /// The offset of the first byte of the line behind it, or the file's length.
    pub behind: usize,
}

/// The line that begins at an offset of a file.
pub fn line_of(source: YamlSource<'_>, from: usize) -> LineOf<'_>
    requires within { from < length source.bytes.now }
    ensures rows { (feed : ℕ) × (rows_after source.entry.bytes.now from ≡ content_row (line (cells from result.text.now) feed) ++ rows_after source.entry.bytes.now result.behind) }
    ensures rest { cells from result.text.now ≡ (line_on source.entry.bytes.now from).text }
    ensures below { rows_after source.entry.bytes.now result.behind ≡ rows_of (lines_below source.entry.bytes.now from) }
    ensures text { result.text.now ≡ take (length result.text.now) (drop from source.entry.bytes.now) }
    ensures start { IsCharBoundary source.entry.bytes.now result.behind }
    ensures further { from < result.behind }
    ensures room { from + length result.text.now ≤ length source.entry.bytes.now }
{
    let rest = past(source.bytes, from);
    let end = line_end(rest);
    let behind = if end.feed < rest.len() {
        from + end.feed + 1
    } else {
        source.bytes.len()
    };
    LineOf {
        text: before(rest, end.text),
        behind,
    }
}

/// The next row from an offset on, at which a line begins, and where the line behind it begins. None where no row is left.
pub fn next_row(source: YamlSource<'_>, from: usize) -> Option<(ContentLine<'_>, usize)>
    requires start { IsCharBoundary source.bytes.now from }
    ensures rows { MatchOption result (rows_after source.entry.bytes.now from ≡ []) (λ x. rows_after source.entry.bytes.now from ≡ shown x.0 ∷ rows_after source.entry.bytes.now x.1) }
    ensures boundary { IfSome result (λ x. IsCharBoundary source.entry.bytes.now x.0.at) }
    ensures text { IfSome result (λ x. x.0.text.now ≡ take (length x.0.text.now) (drop x.0.at source.entry.bytes.now)) }
    ensures rest { IfSome result (λ x. cells x.0.at x.0.text.now ≡ (line_on source.entry.bytes.now x.0.at).text) }
    ensures below { IfSome result (λ x. rows_after source.entry.bytes.now x.1 ≡ rows_of (lines_below source.entry.bytes.now x.0.at)) }
    ensures start { IfSome result (λ x. IsCharBoundary source.entry.bytes.now x.1) }
    ensures further { IfSome result (λ x. from < x.1) }
{
    let mut next = from;
    while next < source.bytes.len() {
        let line = line_of(source, next);
        match line_row(line.text, next as u32) {
            Some(row) => return Some((row, line.behind)),
            None => next = line.behind,
        }
    }
    None
}

/// Where the first line begins at an offset or behind it, from the start of a line on.
pub fn lines_from(source: YamlSource<'_>, from: usize, offset: usize) -> usize
    requires start { IsCharBoundary source.bytes.now from }
    ensures rows { rows_after source.entry.bytes.now result ≡ rows_from offset (rows_after source.entry.bytes.now from) }
    ensures start { IsCharBoundary source.entry.bytes.now result }
    ensures further { from ≤ result }
{
    let mut next = from;
    while next < offset && next < source.bytes.len() {
        next = line_of(source, next).behind;
    }
    next
}
