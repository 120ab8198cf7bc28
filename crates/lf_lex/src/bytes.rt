//! The classes of bytes that tokens are made of.
ghost use Rattle.std.specs.Prelude.{◌≡◌};
ghost use Rattle.lf_lex.specs.Bytes as class_of;

use lf_base::names::{begins_label, is_digit, is_letter};

/// Whether a byte is a blank: a space, a tab, a line feed or a carriage return.
#[tactic(auto, unfolding(crate::specs::Bytes::is_blank))]
pub fn is_blank(byte: u8) -> bool
    ensures { result ≡ class_of.is_blank byte }
{
    byte == b' ' || byte == b'\t' || byte == b'\n' || byte == b'\r'
}

/// Whether a byte is a digit of an octal number, `0` to `7`.
#[tactic(auto, unfolding(crate::specs::Bytes::is_octal))]
pub fn is_octal(byte: u8) -> bool
    ensures { result ≡ class_of.is_octal byte }
{
    48 <= byte && byte <= 55
}

/// Whether a byte is a dot.
#[tactic(auto, unfolding(crate::specs::Bytes::is_dot))]
pub fn is_dot(byte: u8) -> bool
    ensures { result ≡ class_of.is_dot byte }
{
    byte == b'.'
}

/// Whether a byte begins an exponent, `e` or `E`.
#[tactic(auto, unfolding(crate::specs::Bytes::is_exponent))]
pub fn is_exponent(byte: u8) -> bool
    ensures { result ≡ class_of.is_exponent byte }
{
    byte == b'e' || byte == b'E'
}

/// Whether a byte is a sign of a number, `+` or `-`.
#[tactic(auto, unfolding(crate::specs::Bytes::is_plus_minus))]
pub fn is_plus_minus(byte: u8) -> bool
    ensures { result ≡ class_of.is_plus_minus byte }
{
    byte == b'+' || byte == b'-'
}

/// Whether a word begins with the byte, between brackets or elsewhere.
#[tactic(auto, unfolding(crate::specs::Bytes::begins_word))]
pub fn begins_word(inside: bool, byte: u8) -> bool
    ensures { result ≡ class_of.begins_word inside byte }
{
    begins_label(byte) || (byte == b':' && !inside)
}

/// Whether a word goes on with the byte, between brackets or elsewhere.
#[tactic(auto, unfolding(crate::specs::Bytes::is_in_word))]
pub fn is_in_word(inside: bool, byte: u8) -> bool
    ensures { result ≡ class_of.is_in_word inside byte }
{
    begins_word(inside, byte) || is_digit(byte)
}

/// Whether a run goes on with the byte: a digit, a letter, an underscore or a dot.
#[tactic(auto, unfolding(crate::specs::Bytes::is_in_run))]
pub fn is_in_run(byte: u8) -> bool
    ensures { result ≡ class_of.is_in_run byte }
{
    is_digit(byte) || is_letter(byte) || byte == b'_' || byte == b'.'
}

/// Whether the byte can stand in front of a number's exponent: a digit or a dot.
#[tactic(auto, unfolding(crate::specs::Bytes::is_in_mantissa))]
pub fn is_in_mantissa(byte: u8) -> bool
    ensures { result ≡ class_of.is_in_mantissa byte }
{
    is_digit(byte) || is_dot(byte)
}

/// Whether a byte continues a character of several bytes.
#[tactic(auto, unfolding(crate::specs::Bytes::is_continuation))]
pub fn is_continuation(byte: u8) -> bool
    ensures { result ≡ class_of.is_continuation byte }
{
    128 <= byte && byte <= 191
}
