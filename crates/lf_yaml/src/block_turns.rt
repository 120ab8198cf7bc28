//! What the rows behind a part of a block collection are: its next part, its end, or what breaks it.
ghost use Rattle.std.specs.Prelude.{◌≡◌, ℕ, ◌<◌, List, MatchOption, None, Some, IfOk, IfSome, option_map};
ghost use Rattle.std.specs.Str.{IsCharBoundary};
ghost use Rattle.lf_base.specs.Answers.{AnswersAs};
ghost use Rattle.lf_scalar.specs.views.Built.{refused};
ghost use Rattle.lf_yaml.specs.reading.Trees.{entry_of, begins_block as begins_block_of};
ghost use Rattle.lf_yaml.specs.views.Shown.{shown};
ghost use Rattle.lf_yaml.specs.views.Cursor.{rows_after, IsRowOf};
ghost use Rattle.lf_yaml.specs.views.Headed.{headed};
ghost use Rattle.lf_yaml.specs.reading.BlockTurns.{item_turn, entry_turn, no_entry_fault, entry_shown, IsEntryRow};

use crate::below::first_row;
use crate::entries::EntryRow;
use crate::entry::{find_entry, opens_quote};
use crate::head::{byte_fault, indent, indent_fault, is_item, row_fault};
use crate::row::ContentLine;
use crate::source::YamlSource;
use lf_base::{Kind, Refusal};

/// Whether a row begins a block sequence or a block mapping.
pub fn begins_block(row: ContentLine<'_>) -> bool
    ensures { result ≡ begins_block_of (shown row.entry) }
{
    is_item(row) || find_entry(row).is_some()
}

/// The next item of a sequence at an indent, and where the line behind it begins; none where the sequence ends. A sequence that stands at the indent of the mapping
/// around it, its own, ends before a row there that is no item.
#[tactic(auto, unfolding(crate::specs::reading::BlockTurns::item_turn))]
pub fn next_item(
    source: YamlSource<'_>,
    own: bool,
    column: u32,
    next: usize,
) -> Result<Option<(ContentLine<'_>, usize)>, Refusal>
    requires start { IsCharBoundary source.bytes.now next }
    ensures turn { AnswersAs (option_map (λ x. (shown x.0, rows_after source.entry.bytes.now x.1))) result (item_turn own column (rows_after source.entry.bytes.now next)) }
    ensures row { IfOk result (λ o. IfSome o (λ x. IsRowOf source.entry.bytes.now x.0)) }
    ensures start { IfOk result (λ o. IfSome o (λ x. IsCharBoundary source.entry.bytes.now x.1)) }
    ensures further { IfOk result (λ o. IfSome o (λ x. next < x.1)) }
{
    match first_row(source, next) {
        Some((row, behind)) => {
            if column < indent(row) {
                return Err(indent_fault(row));
            }
            if indent(row) < column {
                return Ok(None);
            }
            if is_item(row) {
                return Ok(Some((row, behind)));
            }
            if own { Ok(None) } else { Err(row_fault(row)) }
        }
        None => Ok(None),
    }
}

/// The entry that a row begins. The line behind the row begins at `behind`.
pub fn entry_on(row: ContentLine<'_>, behind: usize) -> Option<EntryRow<'_>>
    ensures head { MatchOption result (entry_of (shown row.entry) ≡ None) (λ e. entry_of (shown row.entry) ≡ Some (headed e.row.at e.row.text.now e.head)) }
    ensures place { IfSome result (λ e. (shown e.row ≡ shown row.entry) × (e.behind ≡ behind)) }
    ensures entry { (bytes : List ℕ) → IsRowOf bytes row.entry → IsCharBoundary bytes behind → IfSome result (IsEntryRow bytes) }
{
    match find_entry(row) {
        Some(head) => Some(EntryRow { row, head, behind }),
        None => None,
    }
}

/// What is told of a row at the indent of a mapping that begins no entry.
fn no_entry(row: ContentLine<'_>) -> Refusal
    ensures { result ≡ refused (no_entry_fault (shown row.entry)) }
{
    if opens_quote(row) {
        byte_fault(Kind::OpenQuote, row.at)
    } else {
        row_fault(row)
    }
}

/// The next entry of a mapping at an indent; none where the mapping ends.
#[tactic(auto, unfolding(crate::specs::reading::BlockTurns::entry_turn))]
pub fn next_entry(
    source: YamlSource<'_>,
    column: u32,
    next: usize,
) -> Result<Option<EntryRow<'_>>, Refusal>
    requires start { IsCharBoundary source.bytes.now next }
    ensures turn { AnswersAs (option_map (entry_shown source.entry.bytes.now)) result (entry_turn column (rows_after source.entry.bytes.now next)) }
    ensures entry { IfOk result (λ o. IfSome o (IsEntryRow source.entry.bytes.now)) }
    ensures further { IfOk result (λ o. IfSome o (λ e. next < e.behind)) }
{
    match first_row(source, next) {
        Some((row, behind)) => {
            if indent(row) > column {
                return Err(indent_fault(row));
            }
            if indent(row) < column {
                return Ok(None);
            }
            match entry_on(row, behind) {
                Some(entry) => Ok(Some(entry)),
                None => Err(no_entry(row)),
            }
        }
        None => Ok(None),
    }
}
