//! How a row begins.
ghost use Rattle.std.specs.Prelude.{◌≡◌, ℕ, suc, ◌+◌, ◌-◌, ◌<◌, ◌≤◌, ◌^◌, length, get_or, drop, option_map};
ghost use Rattle.lf_scalar.specs.Cells.{cell, cells, byte_fault as at_byte, character_fault};
ghost use Rattle.lf_scalar.specs.views.Built.{refused};
ghost use Rattle.lf_yaml.specs.Rows.{indent as indent_of, left_of, is_mark as is_mark_of, is_property as is_property_of, is_left_out as is_left_out_of, indent_fault as indent_fault_of, row_fault as row_fault_of};
ghost use Rattle.lf_yaml.specs.Heads.{is_item as is_item_of};
ghost use Rattle.lf_yaml.specs.views.Shown.{shown};

use crate::keys::has_key_left_out;
use crate::row::ContentLine;
use lf_base::{Kind, Refusal, Span};
use lf_scalar::lines::{char_len, is_blank_byte, past};
use lf_scalar::markers::{is_apart, is_thrice};

/// The column of a row's first character.
pub fn indent(row: ContentLine<'_>) -> u32
    ensures { result ≡ indent_of (shown row.entry) }
{
    row.at - row.begin
}

/// Whether a row begins an item: `-` before a blank or the line's end.
pub fn is_item(row: ContentLine<'_>) -> bool
    ensures { result ≡ is_item_of (shown row.entry) }
{
    match row.text {
        [b'-', rest @ ..] => is_apart(rest),
        [_, ..] => false,
        [] => false,
    }
}

/// What is left of a line behind a sign, none where only blanks and a comment are. `text` stands at an offset of a line that begins at another.
pub fn left<'a>(begin: u32, at: u32, text: &'a [u8]) -> Option<ContentLine<'a>>
    requires order { begin ≤ at }
    requires room { at + length text.now ≤ 2 ^ 31 }
    ensures { option_map shown result ≡ left_of begin (cells at text.entry.now) }
{
    for (i, byte) in text.iter().enumerate() {
        if !is_blank_byte(*byte) {
            if *byte == b'#' {
                return None;
            }
            return Some(ContentLine {
                begin,
                at: at + i as u32,
                text: past(text, i),
            });
        }
    }
    None
}

/// Whether a row is a line at indent 0 that begins with `---` or `...` and a blank or the line's end, or with `%`.
pub fn is_mark(row: ContentLine<'_>) -> bool
    ensures { result ≡ is_mark_of (shown row.entry) }
{
    if indent(row) != 0 {
        return false;
    }
    if is_thrice(b'-', row.text) {
        return true;
    }
    if is_thrice(b'.', row.text) {
        return true;
    }
    row.text[0] == b'%'
}

/// Whether a text begins as an anchor, an alias, a tag or a complex key.
pub fn is_property(text: &[u8]) -> bool
    requires { 0 < length text.now }
    ensures { (at : ℕ) → result ≡ is_property_of (cell (get_or text.now 0 0) at) (cells (suc at) (drop 1 text.now)) }
{
    match text {
        [b'&' | b'*' | b'!', ..] => true,
        [b'?', rest @ ..] => is_apart(rest),
        [_, ..] => false,
        [] => false,
    }
}

/// Whether a row begins with a form that the profile leaves out.
pub fn is_left_out(row: ContentLine<'_>) -> bool
    ensures { result ≡ is_left_out_of (shown row.entry) }
{
    is_property(row.text) || is_mark(row) || has_key_left_out(row.text, row.at)
}

/// The refusal of a kind whose span is one byte.
pub fn byte_fault(kind: Kind, at: u32) -> Refusal
    requires { at < 2 ^ 32 - 1 }
    ensures { result ≡ refused (at_byte kind at) }
{
    Refusal::At {
        kind,
        span: Span {
            start: at,
            end: at + 1,
        },
    }
}

/// The refusal of a kind whose span is a row's first character.
pub fn first_fault(kind: Kind, row: ContentLine<'_>) -> Refusal
    ensures { result ≡ refused (character_fault kind (shown row.entry).first) }
{
    Refusal::At {
        kind,
        span: Span {
            start: row.at,
            end: row.at + char_len(row.text[0]),
        },
    }
}

/// What is told of a row whose indent fits no open collection.
pub fn indent_fault(row: ContentLine<'_>) -> Refusal
    ensures { result ≡ refused (indent_fault_of (shown row.entry)) }
{
    if row.text[0] == b'\t' {
        byte_fault(Kind::BadIndent, row.begin)
    } else {
        first_fault(Kind::BadIndent, row)
    }
}

/// What is told of a row that begins nothing that may stand there.
pub fn row_fault(row: ContentLine<'_>) -> Refusal
    ensures { result ≡ refused (row_fault_of (shown row.entry)) }
{
    if row.text[0] == b'\t' {
        byte_fault(Kind::BadIndent, row.begin)
    } else if is_left_out(row) {
        first_fault(Kind::LeftOut, row)
    } else {
        first_fault(Kind::NotANode, row)
    }
}
