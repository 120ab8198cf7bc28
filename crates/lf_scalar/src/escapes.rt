//! Escapes of double-quoted scalars.
ghost use Rattle.std.specs.Prelude.{◌≡◌, ◌+◌, ◌<◌, ◌≤◌, ◌^◌, ◌++◌, length, IfSome, OnOk, option_map};
ghost use Rattle.lf_scalar.specs.Cells.{Cell, cells};
ghost use Rattle.lf_scalar.specs.Quoted.{Single, Double, letter_of, width_of};
ghost use Rattle.lf_scalar.specs.reading.Quoted.{told, number_of, escape_of, as_character, as_escape, as_piece, as_value, piece_at};

use crate::builder::{ScalarBuilder, push_char};
use crate::lines::past;
use crate::quotes::Quotes;
use lf_base::Memory;
use lf_base::names::hexadecimal_value;

/// The character that a backslash and a letter stand for.
#[tactic(auto, unfolding(crate::specs::Quoted::letter_of))]
pub fn letter(byte: u8) -> Option<char>
    ensures { result ≡ letter_of byte }
{
    match byte {
        b'0' => Some('\0'),
        b'a' => Some('\x07'),
        b'b' => Some('\x08'),
        b't' => Some('\t'),
        b'n' => Some('\n'),
        b'v' => Some('\x0B'),
        b'f' => Some('\x0C'),
        b'r' => Some('\r'),
        b'e' => Some('\x1B'),
        b'"' => Some('"'),
        b'\'' => Some('\''),
        b'\\' => Some('\\'),
        b'N' => Some('\u{85}'),
        b'_' => Some('\u{A0}'),
        b'L' => Some('\u{2028}'),
        b'P' => Some('\u{2029}'),
        b' ' => Some(' '),
        b'\t' => Some('\t'),
        _ => None,
    }
}

/// How many hexadecimal digits follow a backslash and this byte.
pub fn width(byte: u8) -> Option<usize>
    ensures value { result ≡ width_of byte }
    ensures small { IfSome result (λ n. n ≤ 8) }
{
    match byte {
        b'x' => Some(2),
        b'u' => Some(4),
        b'U' => Some(8),
        _ => None,
    }
}

/// The number that up to eight hexadecimal digits tell, none where a byte isn't one.
pub fn number(digits: &[u8], at: u32) -> Option<u32>
    requires { length digits.now ≤ 8 }
    ensures { result ≡ told 0 (cells at digits.now) }
{
    let mut value: u32 = 0;
    for byte in digits {
        let Some(next) = hexadecimal_value(*byte) else {
            return None;
        };
        value = 16 * value + u32::from(next);
    }
    Some(value)
}

/// The character that so many hexadecimal digits at the front tell, none where fewer stand there or no character has that number.
pub fn numbered(digits: &[u8], width: usize, at: u32) -> Option<char>
    requires { width ≤ 8 }
    ensures long { IfSome result (λ _. width ≤ length digits.now) }
    ensures value { (backslash letter : Cell) → option_map (as_character backslash (1 + width)) result ≡ option_map as_piece (number_of backslash letter width (cells at digits.now)) }
{
    if digits.len() < width {
        return None;
    }
    match number(&digits[..width], at) {
        Some(code) => char::from_u32(code),
        None => None,
    }
}

/// What an escape gives, and how many bytes behind the backslash tell it. `rest` is what stands behind the backslash.
pub fn escape(rest: &[u8], at: u32) -> Option<(char, usize)>
    requires { at + length rest.now < 2 ^ 32 }
    ensures value { (backslash : Cell) → option_map (as_escape backslash) result ≡ option_map as_piece (escape_of backslash (cells at rest.now)) }
    ensures within { IfSome result (λ x. x.1 ≤ length rest.now) }
{
    match rest {
        [first, ..] => match width(*first) {
            Some(width) => counted(numbered(past(rest, 1), width, at + 1), 1 + width),
            None => counted(letter(*first), 1),
        },
        [] => None,
    }
}

/// A character, if there is one, and how many bytes tell it.
fn counted(c: Option<char>, count: usize) -> Option<(char, usize)>
    ensures { result ≡ option_map (λ n. (n, count)) c }
{
    match c {
        Some(c) => Some((c, count)),
        None => None,
    }
}

/// What a piece between quotes gives.
#[derive(Clone, Copy, PartialEq, Eq, Debug)]
pub enum PieceValue {
    /// A byte for itself.
    Byte(u8),
    /// The character of an escape.
    Char(char),
}

/// What the piece at the front of a line between single quotes gives, and how many bytes behind its first it takes.
pub fn single_piece(rest: &[u8], at: u32) -> Option<(PieceValue, usize)>
    requires { 0 < length rest.now }
    ensures value { option_map (as_value at) result ≡ option_map as_piece (piece_at Single at rest.now) }
    ensures within { IfSome result (λ x. x.1 < length rest.now) }
{
    if rest[0] != b'\'' {
        return Some((PieceValue::Byte(rest[0]), 0));
    }
    if rest.len() > 1 && rest[1] == b'\'' {
        return Some((PieceValue::Byte(b'\''), 1));
    }
    None
}

/// What the piece at the front of a line between double quotes gives, and how many bytes behind its first it takes.
pub fn double_piece(rest: &[u8], at: u32) -> Option<(PieceValue, usize)>
    requires some { 0 < length rest.now }
    requires room { at + length rest.now < 2 ^ 32 }
    ensures value { option_map (as_value at) result ≡ option_map as_piece (piece_at Double at rest.now) }
    ensures within { IfSome result (λ x. x.1 < length rest.now) }
{
    if rest[0] != b'\\' {
        if rest[0] == b'"' {
            return None;
        }
        return Some((PieceValue::Byte(rest[0]), 0));
    }
    match escape(past(rest, 1), at + 1) {
        Some((c, count)) => Some((PieceValue::Char(c), count)),
        None => None,
    }
}

/// What the piece at the front of a line between quotes gives, and how many bytes behind its first it takes.
pub fn piece(kind: Quotes, rest: &[u8], at: u32) -> Option<(PieceValue, usize)>
    requires some { 0 < length rest.now }
    requires room { at + length rest.now < 2 ^ 32 }
    ensures value { option_map (as_value at) result ≡ option_map as_piece (piece_at kind at rest.now) }
    ensures within { IfSome result (λ x. x.1 < length rest.now) }
{
    match kind {
        Quotes::Single => single_piece(rest, at),
        Quotes::Double => double_piece(rest, at),
    }
}

/// Appends what a piece at an offset gave.
pub fn push_piece_value(
    builder: &mut ScalarBuilder,
    given: PieceValue,
    at: u32,
) -> Result<(), Memory>
    ensures { OnOk result (builder.new ≡ builder.old ++ (as_value at (given, 0)).0) }
{
    match given {
        PieceValue::Byte(byte) => builder.push(byte, at),
        PieceValue::Char(c) => push_char(builder, c, at),
    }
}
