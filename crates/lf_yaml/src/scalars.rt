//! Scalars on a row.
ghost use Rattle.std.specs.Prelude.{true, ◌≡◌, ℕ};
ghost use Rattle.lf_base.specs.Answers.{AnswersAs};
ghost use Rattle.lf_scalar.specs.Cells.{cell};
ghost use Rattle.lf_scalar.specs.Scalars.{least_above, begins, value as scalar_value};
ghost use Rattle.lf_yaml.specs.Rows.{text_of};
ghost use Rattle.lf_yaml.specs.Heads.{style_of as style_of_cell, begins_scalar as begins_scalar_of};
ghost use Rattle.lf_yaml.specs.reading.Trees.{scalar_on};
ghost use Rattle.lf_yaml.specs.views.Shown.{shown};
ghost use Rattle.lf_yaml.specs.views.Cursor.{IsRowOf};

use crate::entry::begins_plain;
use crate::head::is_left_out;
use crate::row::ContentLine;
use crate::source::YamlSource;
use lf_base::Refusal;
use lf_scalar::{Scalar, Style, read_scalar};

/// The style of a scalar by its first byte.
fn style_by(byte: u8) -> Style
    ensures { (at : ℕ) → result ≡ style_of_cell (cell byte at) }
{
    match byte {
        b'|' => Style::Literal,
        b'>' => Style::Folded,
        b'\'' => Style::Single,
        b'"' => Style::Double,
        _ => Style::Plain,
    }
}

/// Whether a row begins as a scalar of the style of its first byte does.
fn begins_styled(row: ContentLine<'_>) -> bool
    ensures { result ≡ begins (style_of_cell (shown row.entry).first) (text_of (shown row.entry)) }
{
    match row.text[0] {
        b'|' => true,
        b'>' => true,
        b'\'' => true,
        b'"' => true,
        _ => begins_plain(row.text),
    }
}

/// Whether a row begins a scalar of some style.
pub fn begins_scalar(row: ContentLine<'_>) -> bool
    ensures { result ≡ begins_scalar_of (shown row.entry) }
{
    begins_styled(row) && !is_left_out(row)
}

/// The scalar that a row begins, as a value whose parent has an indent, -1 at the root.
pub fn scalar(source: YamlSource<'_>, row: ContentLine<'_>, parent: i32) -> Result<Scalar, Refusal>
    requires row { IsRowOf source.bytes.now row }
    requires begins { begins_scalar_of (shown row) ≡ true }
    ensures { AnswersAs scalar_value result (scalar_on source.entry.bytes.now (least_above parent) (shown row.entry)) }
{
    read_scalar(
        source.alloc,
        source.bytes,
        row.at,
        parent,
        style_by(row.text[0]),
    )
}
