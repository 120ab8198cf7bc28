//! The classes of bytes that tokens are made of, and rows of them.
ghost use Rattle.std.specs.Prelude.{◌≡◌, ◌≤◌, length};
ghost use Rattle.std.specs.List.{prefix_len};
ghost use Rattle.lf_base.specs.Rows.{starts as starts_of};
ghost use Rattle.lf_templates.specs.Bytes as class_of;
ghost use Rattle.lf_templates.specs.reading.Templates.{is_in_class};

use crate::token::{ActionToken, Beginning};
use lf_base::names::{begins_label, is_digit, is_in_label};

/// What a row is made of.
#[derive(Clone, Copy, PartialEq, Eq, Debug)]
pub enum ActionByteClass {
    /// What a word goes on with.
    Word,
    /// What a number goes on with.
    Number,
    /// What stands between back quotes.
    NoBackQuote,
}

/// Whether a number goes on with the byte.
#[tactic(auto, unfolding(crate::specs::Bytes::is_in_number))]
fn is_in_number(byte: u8) -> bool
    ensures { result ≡ class_of.is_in_number byte }
{
    is_in_label(byte) || byte == b'.'
}

/// Whether a byte is of a class.
fn is_in_class(class: ActionByteClass, byte: u8) -> bool
    ensures { result ≡ is_in_class class byte }
{
    match class {
        ActionByteClass::Word => is_in_label(byte),
        ActionByteClass::Number => is_in_number(byte),
        ActionByteClass::NoBackQuote => byte != b'`',
    }
}

/// What a byte begins.
#[tactic(auto, unfolding(crate::specs::Bytes::beginning))]
pub fn beginning(byte: u8) -> Beginning
    ensures { result ≡ class_of.beginning byte }
{
    if begins_label(byte) {
        Beginning::Letter
    } else if is_digit(byte) {
        Beginning::Digit
    } else {
        sign(byte)
    }
}

/// What a byte begins that is no letter, underscore or digit.
#[tactic(auto, unfolding(crate::specs::Bytes::sign_begins))]
fn sign(byte: u8) -> Beginning
    ensures { result ≡ class_of.sign_begins byte }
{
    let token = match byte {
        b'"' => return Beginning::Quote,
        b'\'' => return Beginning::Quote,
        b'`' => return Beginning::BackQuote,
        b'$' => return Beginning::Dollar,
        b'.' => return Beginning::Dot,
        b':' => return Beginning::Colon,
        b'/' => return Beginning::Slash,
        b'-' => return Beginning::Minus,
        b' ' => ActionToken::Blank { inline: true },
        b'\t' => ActionToken::Blank { inline: true },
        b'\n' => ActionToken::Blank { inline: false },
        b'\r' => ActionToken::Blank { inline: false },
        b'(' => ActionToken::Open,
        b')' => ActionToken::Close,
        b',' => ActionToken::Setting,
        b'=' => ActionToken::Setting,
        b'|' => ActionToken::Plain,
        b'+' => ActionToken::Plain,
        _ => ActionToken::Wrong,
    };
    Beginning::Alone { token }
}

/// Whether a text begins with two bytes.
pub fn starts_with(first: u8, second: u8, text: &[u8]) -> bool
    ensures { result ≡ class_of.starts_with first second text.now }
{
    match text {
        [] => false,
        [_only] => false,
        [a, b, ..] => *a == first && *b == second,
    }
}

/// Whether a text begins with a byte.
pub fn starts(first: u8, text: &[u8]) -> bool
    ensures { result ≡ starts_of (λ b. class_of.is b first) text.now }
{
    match text {
        [] => false,
        [a, ..] => *a == first,
    }
}

/// How many bytes the longest row of a class at the front has.
pub fn row_len(bytes: &[u8], class: ActionByteClass) -> usize
    ensures within { result ≤ length bytes.now }
    ensures row { result ≡ prefix_len (is_in_class class) bytes.now }
{
    bytes
        .iter()
        .take_while(|byte| is_in_class(class, **byte))
        .count()
}
