//! Whether a scalar begins somewhere.
ghost use Rattle.std.specs.Prelude.{◌≡◌, ℕ, get_or, eqb, IsTrue, ◌↔◌};
ghost use Rattle.std.specs.Str.{IsCharBoundary};
ghost use Rattle.lf_scalar.specs.Cells.{cells};
ghost use Rattle.lf_scalar.specs.Lines.{lines, first_text};
ghost use Rattle.lf_scalar.specs.Scalars.{BeginsAt};
ghost use Rattle.lf_scalar.specs.reading.Begins.{first_byte_of, is_full_byte, begins_by};

use crate::lines::{is_blank_byte, past};
use crate::plain_signs::{is_plain_byte, is_sign_byte};
use crate::scalar::Style;

/// Whether a scalar of a style begins at an offset of a file, as `read_scalar` asks: a character begins there, and a scalar of the style begins with it. It takes a fixed time.
pub fn begins_scalar(bytes: &[u8], at: u32, style: Style) -> bool
    ensures { IsTrue result ↔ BeginsAt bytes.now at style }
{
    let place = at as usize;
    let rest = past(bytes, place);
    let begins = begins_with(style, first_byte(rest), first_byte(past(rest, 1)));
    is_char_start(bytes, place) && begins
}

/// Whether a character begins at a place, or the bytes end there.
fn is_char_start(bytes: &[u8], place: usize) -> bool
    ensures { IsTrue result ↔ IsCharBoundary bytes.now place }
{
    if place < bytes.len() {
        bytes[place] < 128 || bytes[place] >= 192
    } else {
        place == bytes.len()
    }
}

/// The first byte of the first line, none where it has none.
fn first_byte(rest: &[u8]) -> Option<u8>
    ensures { (at end : ℕ) → result ≡ first_byte_of (first_text (lines end (cells at rest.now))) }
{
    if rest.is_empty() {
        return None;
    }
    if rest[0] == b'\n' {
        return None;
    }
    if rest[0] == b'\r' && is_feed_at(rest, 1) {
        return None;
    }
    Some(rest[0])
}

/// Whether a line feed stands at a place.
fn is_feed_at(rest: &[u8], place: usize) -> bool
    ensures { result ≡ eqb (get_or rest.now place 0) 10 }
{
    place < rest.len() && rest[place] == b'\n'
}

/// Whether there is a byte, and it is no blank.
fn is_full(byte: Option<u8>) -> bool
    ensures { result ≡ is_full_byte byte }
{
    match byte {
        Some(byte) => !is_blank_byte(byte),
        None => false,
    }
}

/// Whether a scalar of a style begins with a byte that another follows on its line.
fn begins_with(style: Style, first: Option<u8>, second: Option<u8>) -> bool
    ensures { result ≡ begins_by style first second }
{
    match first {
        Some(byte) => match style {
            Style::Plain => is_plain_byte(byte) || is_sign_byte(byte) && is_full(second),
            Style::Single => byte == b'\'',
            Style::Double => byte == b'"',
            Style::Literal => byte == b'|',
            Style::Folded => byte == b'>',
        },
        None => false,
    }
}
