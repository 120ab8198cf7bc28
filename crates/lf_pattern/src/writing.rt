//! What the pieces of a replacement stand for where a plain pattern matches.
ghost use Rattle.std.specs.Prelude.{◌≡◌, IfOk};
ghost use Rattle.std.specs.List.{flat_map};
ghost use Rattle.lf_pattern.specs.reading.Expansion.{piece_text, plain_group};

use crate::replacement::ReplacementPiece;
use lf_base::{Memory, Text};
use std::alloc::Global;

/// What pieces of a replacement stand for where a plain pattern matches the value. `pair` says that the pattern stands in a pair of parentheses that is a group.
pub fn write_plain(
    alloc: Global,
    value: &str,
    pair: bool,
    pieces: &[ReplacementPiece],
) -> Result<Text, Memory>
    ensures { IfOk result (λ t. t ≡ flat_map (piece_text (plain_group pair value.now)) pieces.now) }
{
    let mut text = String::new(alloc);
    for piece in pieces {
        match piece {
            ReplacementPiece::Char(c) => text.push(*c)?,
            ReplacementPiece::Group(n) => text.push_str(group(value, pair, *n))?,
        }
    }
    Ok(Text::from_string(text))
}

/// The text of a group: the value for group 0, and for group 1 where there is one.
fn group(value: &str, pair: bool, n: usize) -> &str
    ensures { result.now ≡ plain_group pair value.now n }
{
    if n == 0 || (pair && n == 1) {
        value
    } else {
        ""
    }
}
