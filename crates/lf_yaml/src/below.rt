//! What stands behind a sign: the rest of its row, and the rows below.
ghost use Rattle.std.specs.Prelude.{◌≡◌, eqb, ℕ, suc, ◌+◌, ◌<◌, ◌∷◌, [], List, None, Some, length, get_or, drop, MatchOption, IfSome, option_map};
ghost use Rattle.std.specs.Str.{IsCharBoundary, IsUtf8};
ghost use Rattle.lf_base.specs.declared.kind.Kind.TheVariants.{NotANode};
ghost use Rattle.lf_scalar.specs.Cells.{Cell, cells, byte_fault as fault_of};
ghost use Rattle.lf_scalar.specs.views.Built.{refused};
ghost use Rattle.lf_yaml.specs.Rows.{indent as indent_of, left_of, tab_in};
ghost use Rattle.lf_yaml.specs.Nodes.{NoneBelow, NothingBelow};
ghost use Rattle.lf_yaml.specs.views.Shown.{shown};
ghost use Rattle.lf_yaml.specs.views.Cursor.{rows_after, IsRowOf};
ghost use Rattle.lf_yaml.specs.reading.BlockTurns.{IsBehind, IsBelow};

use crate::entries::{Below, EntryRow};
use crate::head::{byte_fault, indent, is_item, left};
use crate::row::ContentLine;
use crate::rows::next_row;
use crate::source::YamlSource;
use lf_base::{Kind, Refusal};
use lf_scalar::lines::{past, spaces};

/// What is left of a row behind an ASCII byte at a place.
pub fn left_behind(row: ContentLine<'_>, sign: usize) -> Option<ContentLine<'_>>
    requires within { sign < length row.text.now }
    ensures left { option_map shown result ≡ left_of row.entry.begin (cells (row.entry.at + (sign + 1)) (drop (sign + 1) row.entry.text.now)) }
    ensures row { (bytes : List ℕ) → IsUtf8 bytes → IsRowOf bytes row.entry → get_or row.entry.text.now sign 0 < 128 → IfSome result (λ r. IsRowOf bytes r) }
{
    left(
        row.begin,
        row.at + sign as u32 + 1,
        past(row.text, sign + 1),
    )
}

/// The refusal of a tab that stands among the blanks behind an item's sign, where only spaces may stand.
pub fn tab_behind(row: ContentLine<'_>) -> Option<Refusal>
    ensures { MatchOption result (tab_in (shown row.entry).rest ≡ None) (λ e. (c : Cell) × (tab_in (shown row.entry).rest ≡ Some c) × (e ≡ refused (fault_of NotANode c.at))) }
{
    let rest = past(row.text, 1);
    let skipped = spaces(rest);
    if is_tab(rest, skipped) {
        Some(byte_fault(Kind::NotANode, row.at + 1 + skipped as u32))
    } else {
        None
    }
}

/// Whether a tab stands at a place.
fn is_tab(text: &[u8], place: usize) -> bool
    ensures { result ≡ eqb (get_or text.now place 0) 9 }
{
    place < text.len() && text[place] == b'\t'
}

/// The next row of a file from the start of a line on, and where the line behind it begins.
pub fn first_row(source: YamlSource<'_>, next: usize) -> Option<(ContentLine<'_>, usize)>
    requires start { IsCharBoundary source.bytes.now next }
    ensures rows { MatchOption result (rows_after source.entry.bytes.now next ≡ []) (λ x. rows_after source.entry.bytes.now next ≡ shown x.0 ∷ rows_after source.entry.bytes.now x.1) }
    ensures row { IfSome result (λ x. IsRowOf source.entry.bytes.now x.0) }
    ensures start { IfSome result (λ x. IsCharBoundary source.entry.bytes.now x.1) }
    ensures further { IfSome result (λ x. next < x.1) }
{
    next_row(source, next)
}

/// The row on which the value of an item at an indent begins, where it stands below the item.
pub fn row_below(
    source: YamlSource<'_>,
    column: u32,
    next: usize,
) -> Option<(ContentLine<'_>, usize)>
    requires start { IsCharBoundary source.bytes.now next }
    ensures rows { MatchOption result (NoneBelow column (rows_after source.entry.bytes.now next)) (λ x. (column < indent_of (shown x.0)) × (rows_after source.entry.bytes.now next ≡ shown x.0 ∷ rows_after source.entry.bytes.now x.1)) }
    ensures row { IfSome result (λ x. IsRowOf source.entry.bytes.now x.0) }
    ensures start { IfSome result (λ x. IsCharBoundary source.entry.bytes.now x.1) }
    ensures further { IfSome result (λ x. next < x.1) }
{
    match first_row(source, next) {
        Some((row, behind)) => {
            if column < indent(row) {
                Some((row, behind))
            } else {
                None
            }
        }
        None => None,
    }
}

/// The row on which the value of an entry begins below the entry, where one does: with a larger indent, or an item at the same.
pub fn row_beside(source: YamlSource<'_>, column: u32, next: usize) -> Option<Below<'_>>
    requires start { IsCharBoundary source.bytes.now next }
    ensures rows { MatchOption result (NothingBelow column (rows_after source.entry.bytes.now next)) (λ b. IsBelow b.own column (shown b.row) × (rows_after source.entry.bytes.now next ≡ shown b.row ∷ rows_after source.entry.bytes.now b.behind)) }
    ensures row { IfSome result (λ b. IsRowOf source.entry.bytes.now b.row) }
    ensures start { IfSome result (λ b. IsCharBoundary source.entry.bytes.now b.behind) }
    ensures further { IfSome result (λ b. next < b.behind) }
{
    match first_row(source, next) {
        Some((row, behind)) => {
            if indent(row) > column {
                let own = false;
                return Some(Below { own, row, behind });
            }
            if indent(row) == column && is_item(row) {
                let own = true;
                return Some(Below { own, row, behind });
            }
            None
        }
        None => None,
    }
}

/// What is left of an entry's row behind its `:`.
pub fn left_of_entry(entry: EntryRow<'_>) -> Option<ContentLine<'_>>
    requires behind { IsBehind entry.row entry.head.colon entry.head.behind.now }
    ensures left { option_map shown result ≡ left_of entry.entry.row.begin (cells (suc entry.entry.head.colon) entry.entry.head.behind.now) }
    ensures row { (bytes : List ℕ) → IsUtf8 bytes → IsRowOf bytes entry.entry.row → IfSome result (λ r. IsRowOf bytes r) }
{
    left_behind(entry.row, (entry.head.colon - entry.row.at) as usize)
}
