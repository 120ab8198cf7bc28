//! What tokens are read by: as many bytes of a class as stand at the front.
ghost use Rattle.std.specs.Prelude.{◌≡◌, ◌≤◌, length};
ghost use Rattle.std.specs.List.{prefix_len};
ghost use Rattle.lf_lex.specs.reading.Classes.{is_in_class};

use crate::bytes::{is_continuation, is_in_mantissa, is_in_run, is_in_word};
use lf_base::names::is_digit;

/// A class of bytes.
#[derive(Clone, Copy, PartialEq, Eq, Debug)]
pub enum ByteClass {
    /// All but a line feed and a carriage return.
    NoLineBreak,
    /// All but a back quote.
    NoBackQuote,
    /// What a word goes on with, between brackets or elsewhere.
    Word { inside: bool },
    /// Digits and dots.
    Mantissa,
    /// What a run is made of but for the sign of an exponent.
    Run,
    /// Digits.
    Digit,
    /// What continues a character of several bytes.
    Continuation,
}

/// Whether a byte is of a class.
#[tactic(auto, unfolding(crate::specs::Bytes::is_line_break))]
fn is_in_class(class: ByteClass, byte: u8) -> bool
    ensures { result ≡ is_in_class class byte }
{
    match class {
        ByteClass::NoLineBreak => byte != b'\n' && byte != b'\r',
        ByteClass::NoBackQuote => byte != b'`',
        ByteClass::Word { inside } => is_in_word(inside, byte),
        ByteClass::Mantissa => is_in_mantissa(byte),
        ByteClass::Run => is_in_run(byte),
        ByteClass::Digit => is_digit(byte),
        ByteClass::Continuation => is_continuation(byte),
    }
}

/// How many bytes at the front are of a class, before the first that isn't.
pub fn prefix_len(bytes: &[u8], class: ByteClass) -> usize
    ensures within { result ≤ length bytes.now }
    ensures value { result ≡ prefix_len (is_in_class class) bytes.now }
{
    bytes
        .iter()
        .take_while(|byte| is_in_class(class, **byte))
        .count()
}
