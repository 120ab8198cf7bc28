//! Strings in quotes: what their escapes give.
ghost use Rattle.std.specs.Prelude.{◌≡◌, ◌+◌, ◌≤◌, ◌<◌, ◌++◌, length, Option, Some, None, IfSome, IfOk, OnOk, encode_utf8, slice_index, ◌&&◌, ◌==◌};
ghost use Rattle.lf_lex.specs.Strings.{byte_of_letter};
ghost use Rattle.lf_lex.specs.reading.Strings as strings;
ghost use Rattle.lf_lex.specs.reading.Escapes.{told_of, given_by};

use crate::bytes::is_octal;
use lf_base::Memory;
use lf_base::bytes::after;
use lf_base::names::{hexadecimal_value, is_digit};
use std::alloc::Global;

/// What an escape stands for.
#[derive(Clone, Copy, Debug)]
pub enum Escaped {
    Byte(u8),
    Character(char),
}

#[tactic(auto, unfolding(crate::specs::Strings::byte_of_letter))]
fn byte_of_letter(letter: u8) -> Option<u8>
    ensures { result ≡ byte_of_letter letter }
{
    match letter {
        b'a' => Some(7),
        b'b' => Some(8),
        b'f' => Some(12),
        b'n' => Some(10),
        b'r' => Some(13),
        b't' => Some(9),
        b'v' => Some(11),
        b'\\' => Some(92),
        _ => None,
    }
}

/// The number of the two hexadecimal digits at the front.
#[tactic(auto, unfolding(crate::specs::reading::Strings::two_digits))]
fn two_digits(rest: &[u8]) -> Option<u8>
    ensures value { result ≡ strings.two_digits rest.now }
    ensures room { IfSome result (λ _. 2 ≤ length rest.now) }
{
    match rest {
        [] => None,
        [_only] => None,
        [high, low, ..] => {
            let high = hexadecimal_value(*high)?;
            let low = hexadecimal_value(*low)?;
            Some(16 * high + low)
        }
    }
}

/// The number of the four hexadecimal digits at the front.
#[tactic(auto, unfolding(crate::specs::reading::Strings::four_digits))]
fn four_digits(rest: &[u8]) -> Option<u16>
    ensures value { result ≡ strings.four_digits rest.now }
    ensures room { IfSome result (λ _. 4 ≤ length rest.now) }
{
    let high = two_digits(rest)?;
    let low = two_digits(after(rest, 2))?;
    Some(256 * u16::from(high) + u16::from(low))
}

/// The number of the eight hexadecimal digits at the front.
#[tactic(auto, unfolding(crate::specs::reading::Strings::eight_digits))]
fn eight_digits(rest: &[u8]) -> Option<u32>
    ensures value { result ≡ strings.eight_digits rest.now }
    ensures room { IfSome result (λ _. 8 ≤ length rest.now) }
{
    let high = four_digits(rest)?;
    let low = four_digits(after(rest, 4))?;
    Some(65536 * u32::from(high) + u32::from(low))
}

/// The number of the three octal digits at the front, at most 377 in octal.
#[tactic(auto, unfolding(crate::specs::reading::Strings::octal_byte, crate::specs::Bytes::is_octal))]
fn octal_byte(rest: &[u8]) -> Option<u8>
    ensures { result ≡ strings.octal_byte rest.now }
{
    match rest {
        [] => None,
        [_only] => None,
        [_first, _second] => None,
        [a, b, c, ..] => {
            if is_octal(*a) && is_octal(*b) && is_octal(*c) && *a < 52 {
                Some(64 * (*a - 48) + 8 * (*b - 48) + (*c - 48))
            } else {
                None
            }
        }
    }
}

fn as_byte(count: usize, byte: Option<u8>) -> Option<(Escaped, usize)>
    ensures { told_of result ≡ strings.as_byte count byte }
{
    match byte {
        None => None,
        Some(byte) => Some((Escaped::Byte(byte), count)),
    }
}

#[tactic(auto, unfolding(crate::specs::reading::Strings::is_scalar))]
fn as_character(count: usize, number: Option<u32>) -> Option<(Escaped, usize)>
    ensures { told_of result ≡ strings.as_character count number }
{
    match number {
        None => None,
        Some(number) => match char::from_u32(number) {
            Some(character) => Some((Escaped::Character(character), count)),
            None => None,
        },
    }
}

/// The escape behind a backslash in a string with this quote, and how many bytes tell it.
#[tactic(auto, unfolding(crate::specs::reading::Strings::escape))]
fn escape(quote: u8, rest: &[u8]) -> Option<(Escaped, usize)>
    ensures { told_of result ≡ strings.escape quote rest.now }
{
    match rest {
        [] => None,
        [letter, more @ ..] => {
            if *letter == quote {
                Some((Escaped::Byte(quote), 1))
            } else if *letter == b'x' {
                as_byte(3, two_digits(more))
            } else if *letter == b'u' {
                as_character(5, widened(four_digits(more)))
            } else if *letter == b'U' {
                as_character(9, eight_digits(more))
            } else if is_digit(*letter) {
                as_byte(3, octal_byte(rest))
            } else {
                as_byte(1, byte_of_letter(*letter))
            }
        }
    }
}

fn widened(number: Option<u16>) -> Option<u32>
    ensures { result ≡ number }
{
    match number {
        None => None,
        Some(number) => Some(u32::from(number)),
    }
}

/// What the front between the quotes gives, and how many bytes behind the first belong to it. A backslash with which no escape begins gives a byte that stands
/// in no UTF-8.
#[tactic(auto, unfolding(crate::specs::reading::Strings::piece))]
fn piece(quote: u8, rest: &[u8]) -> (Escaped, usize)
    requires { 0 < length rest.now }
    ensures { (given_by result.0, result.1) ≡ strings.piece quote rest.now }
{
    if rest[0] != b'\\' {
        return (Escaped::Byte(rest[0]), 0);
    }
    match escape(quote, after(rest, 1)) {
        Some(found) => found,
        None => (Escaped::Byte(255), 0),
    }
}

/// Appends what an escape stands for.
fn push(bytes: &mut Vec<u8>, escaped: Escaped) -> Result<(), Memory>
    ensures { OnOk result (bytes.new.items ≡ bytes.old.items ++ given_by escaped) }
{
    match escaped {
        Escaped::Byte(byte) => {
            bytes.push(byte)?;
            Ok(())
        }
        Escaped::Character(character) => {
            let mut buffer = [0u8; 4];
            let text = character.encode_utf8(&mut buffer);
            bytes.extend_from_slice(text.as_bytes())?;
            Ok(())
        }
    }
}

/// How many bytes an escape stands for.
fn given_len(escaped: Escaped) -> usize
    ensures { result ≡ length (given_by escaped) }
{
    match escaped {
        Escaped::Byte(_) => 1,
        Escaped::Character(character) => character.len_utf8(),
    }
}

/// The bytes that what stands between the quotes gives.
pub fn value_bytes(alloc: Global, quote: u8, inner: &[u8]) -> Result<Vec<u8>, Memory>
    ensures { IfOk result (λ bytes. bytes.items ≡ strings.bytes_of (strings.gives quote 0 0 inner.now)) }
{
    let mut bytes = Vec::new(alloc);
    let mut skip: usize = 0;
    for i in 0..inner.len() {
        if skip > 0 {
            skip -= 1;
        } else {
            let (escaped, more) = piece(quote, after(inner, i));
            push(&mut bytes, escaped)?;
            skip = more;
        }
    }
    Ok(bytes)
}

/// The place between the quotes of what gave a byte of the value: of the byte itself, or of the backslash.
pub fn place_of_byte(quote: u8, inner: &[u8], number: usize) -> usize
    requires { number < length (strings.gives quote 0 0 inner.now) }
    ensures value { result ≡ slice_index (strings.places_of (strings.gives quote 0 0 inner.now)) number }
    ensures within { result < length inner.now }
{
    let mut left = number;
    let mut skip: usize = 0;
    for i in 0..inner.len() {
        if skip > 0 {
            skip -= 1;
        } else {
            let (escaped, more) = piece(quote, after(inner, i));
            let len = given_len(escaped);
            if left < len {
                return i;
            }
            left -= len;
            skip = more;
        }
    }
    unreachable!()
}
