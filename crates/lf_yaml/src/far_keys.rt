//! Keys between quotes whose `:` stands too far behind the quote that opens.
ghost use Rattle.std.specs.Prelude.{◌≡◌, suc, ◌+◌, ◌<◌, ◌≤◌, ◌^◌, length, drop, option_map, IfSome};
ghost use Rattle.lf_scalar.specs.Cells.{cell, cells};
ghost use Rattle.lf_scalar.specs.reading.Quoted.{closing_of};
ghost use Rattle.lf_yaml.specs.Keys.{is_too_far as is_too_far_of, before_offset, has_far_key as has_far_key_of};
ghost use Rattle.lf_yaml.specs.Rows.{text_of};
ghost use Rattle.lf_yaml.specs.reading.Trees.{sign_behind as sign_behind_of, behind_closing, far_sign};
ghost use Rattle.lf_yaml.specs.views.Shown.{shown};

use crate::entry::{quote_of, sign_behind};
use crate::keys::is_too_far;
use crate::row::ContentLine;
use lf_base::bytes::before;
use lf_scalar::lines::past;
use lf_scalar::markers::is_apart;
use lf_scalar::quotes::{Quotes, find_closing};

/// The `:` behind a key between quotes that a text begins with, at its offset, and what stands behind it. The text stands at an offset.
fn sign_of(quote: Quotes, text: &[u8], at: u32) -> Option<(u32, &[u8])>
    requires some { 0 < length text.now }
    requires room { at + length text.now ≤ 2 ^ 31 }
    ensures sign { option_map (λ x. (cell 58 x.0, cells (suc x.0) x.1.now)) result ≡ sign_behind_of (behind_closing (closing_of quote 0 (cells (suc at) (drop 1 text.entry.now)))) }
    ensures within { IfSome result (λ x. (at ≤ x.0) × (x.0 ≤ at + length text.entry.now)) }
{
    let inside = past(text, 1);
    match find_closing(quote, inside, at + 1) {
        Some(closing) => sign_behind(past(inside, closing + 1), at + (closing as u32 + 2)),
        None => None,
    }
}

/// Whether a `:` at an offset stands too far behind the start of a text, which stands at an offset.
fn is_far(text: &[u8], at: u32, colon: u32) -> bool
    requires order { at ≤ colon }
    requires within { colon ≤ at + length text.now }
    ensures { result ≡ is_too_far_of (before_offset colon (cells at text.now)) }
{
    is_too_far(before(text, (colon - at) as usize))
}

/// Whether a text begins with a key between quotes of a block mapping whose `:` stands too far behind the quote that opens.
pub fn has_far_key(text: &[u8], at: u32) -> bool
    requires some { 0 < length text.now }
    requires room { at + length text.now ≤ 2 ^ 31 }
    ensures { result ≡ has_far_key_of (cells at text.now) }
{
    match quote_of(text[0]) {
        Some(quote) => match sign_of(quote, text, at) {
            Some((colon, behind)) => is_apart(behind) && is_far(text, at, colon),
            None => false,
        },
        None => false,
    }
}

/// Whether a part begins with a key between quotes of a flow mapping whose `:` stands too far behind the quote that opens.
pub fn is_far_part(part: ContentLine<'_>, quote: Quotes) -> bool
    ensures { result ≡ far_sign (text_of (shown part.entry)) (sign_behind_of (behind_closing (closing_of quote 0 (shown part.entry).rest))) }
{
    match sign_of(quote, part.text, part.at) {
        Some((colon, _)) => is_far(part.text, part.at, colon),
        None => false,
    }
}
