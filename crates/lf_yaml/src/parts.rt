//! The parts of flow collections: where the next one begins.
ghost use Rattle.std.specs.Prelude.{◌≡◌, ℕ, List, ◌+◌, ◌<◌, ◌≤◌, length, IfOk};
ghost use Rattle.std.specs.Str.{IsCharBoundary, IsUtf8};
ghost use Rattle.lf_yaml.specs.Flow.{on_line as on_line_of, next_on};
ghost use Rattle.lf_yaml.specs.views.Cursor.{rows_after};
ghost use Rattle.lf_yaml.specs.views.Parts.{IsNext};
ghost use Rattle.lf_yaml.specs.views.Places.{IsPartIn, IsPlaceIn};

use crate::head::{first_fault, indent_fault, is_mark};
use crate::place::FlowCursor;
use crate::row::ContentLine;
use crate::rows::{line_of, next_row};
use crate::source::YamlSource;
use lf_base::{Kind, Refusal, Span};
use lf_scalar::lines::{blanks, past};

/// The part that begins on a later line, at its first character. The line may have any indent, but no tab behind it, and is no mark. The file doesn't end before it.
pub fn on_line(source: YamlSource<'_>, next: usize) -> Result<(ContentLine<'_>, usize), Refusal>
    requires start { IsCharBoundary source.bytes.now next }
    ensures next { IsNext result (on_line_of (length source.entry.bytes.now) (rows_after source.entry.bytes.now next)) }
    ensures part { IfOk result (λ x. IsPartIn source.entry.bytes.now x.0 x.1) }
{
    match next_row(source, next) {
        None => {
            let end = source.bytes.len() as u32;
            Err(Refusal::At {
                kind: Kind::NotANode,
                span: Span { start: end, end },
            })
        }
        Some((row, behind)) => {
            if row.text[0] == b'\t' {
                return Err(indent_fault(row));
            }
            if is_mark(row) {
                return Err(first_fault(Kind::LeftOut, row));
            }
            Ok((row, behind))
        }
    }
}

/// The next part from a place on, and where the lines behind its own begin: blanks are skipped, and a comment, whose `#` stands behind a blank.
#[tactic(auto, unfolding(crate::specs::Flow::next_on))]
pub fn next_part<'a>(
    source: YamlSource<'a>,
    place: FlowCursor<'a>,
) -> Result<(ContentLine<'a>, usize), Refusal>
    requires place { IsPlaceIn source.bytes.now place }
    ensures next { IsNext result (next_on source.entry.bytes.now place.entry.at) }
    ensures part { IfOk result (λ x. IsPartIn source.entry.bytes.now x.0 x.1) }
    ensures further { IfOk result (λ x. place.entry.at ≤ x.0.at) }
{
    let skipped = blanks(place.text);
    match past(place.text, skipped) {
        [] => on_line(source, place.next),
        [first, ..] => {
            if skipped > 0 && *first == b'#' {
                return on_line(source, place.next);
            }
            let row = ContentLine {
                begin: place.begin,
                at: place.at + skipped as u32,
                text: past(place.text, skipped),
            };
            Ok((row, place.next))
        }
    }
}

/// The place behind the first `len` bytes of a part, behind whose line the lines begin at `next`.
pub fn behind(part: ContentLine<'_>, len: usize, next: usize) -> FlowCursor<'_>
    requires within { len ≤ length part.text.now }
    ensures at { result.at ≡ part.entry.at + len }
    ensures place { (bytes : List ℕ) → IsPartIn bytes part.entry next → IsCharBoundary part.entry.text.now len → IsPlaceIn bytes result }
    ensures from { (bytes : List ℕ) → IsUtf8 bytes → IsPartIn bytes part.entry next → IsCharBoundary bytes (part.entry.at + len) → IsPlaceIn bytes result }
{
    FlowCursor {
        begin: part.begin,
        at: part.at + len as u32,
        text: past(part.text, len),
        next,
    }
}

/// The place at an offset of a file where a character begins.
pub fn place_on(source: YamlSource<'_>, at: u32) -> FlowCursor<'_>
    requires start { IsCharBoundary source.bytes.now at }
    ensures at { result.at ≡ at }
    ensures place { IsPlaceIn source.entry.bytes.now result }
{
    if (at as usize) < source.bytes.len() {
        let line = line_of(source, at as usize);
        return FlowCursor {
            begin: at,
            at,
            text: line.text,
            next: line.behind,
        };
    }
    FlowCursor {
        begin: at,
        at,
        text: &[],
        next: source.bytes.len(),
    }
}

/// The place at an offset behind a part's first byte, on the part's line or on a later one. The lines behind the part's own begin at `next`.
pub fn place_from<'a>(
    source: YamlSource<'a>,
    part: ContentLine<'a>,
    next: usize,
    at: u32,
) -> FlowCursor<'a>
    requires part { IsPartIn source.bytes.now part next }
    requires order { part.at ≤ at }
    requires start { IsCharBoundary source.bytes.now at }
    ensures at { result.at ≡ at }
    ensures place { IsPlaceIn source.entry.bytes.now result }
{
    let len = (at - part.at) as usize;
    if len <= part.text.len() {
        behind(part, len, next)
    } else {
        place_on(source, at)
    }
}
