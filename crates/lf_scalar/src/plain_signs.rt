//! The bytes that begin a plain scalar. It is public for the crates of this repository that tell a plain scalar from other nodes.
ghost use Rattle.std.specs.Prelude.{◌≡◌, ℕ};
ghost use Rattle.lf_scalar.specs.Cells.{cell};
ghost use Rattle.lf_scalar.specs.Plain.{is_plain_byte as is_plain_byte_of, is_sign as is_sign_of};

use crate::lines::is_blank_byte;

/// Whether a byte of a line, without the line's end, begins a plain scalar whatever follows it: it is no blank, and none of the signs of the format. The first
/// byte of a character beyond ASCII does.
pub fn is_plain_byte(byte: u8) -> bool
    ensures { (at : ℕ) → result ≡ is_plain_byte_of (cell byte at) }
{
    !is_blank_byte(byte) && !b"-?:,[]{}#&*!|>'\"%@`".contains(&byte)
}

/// Whether a byte is one of `-`, `?` and `:`, which begin a plain scalar where a character other than a blank follows.
pub fn is_sign_byte(byte: u8) -> bool
    ensures { (at : ℕ) → result ≡ is_sign_of (cell byte at) }
{
    byte == b'-' || byte == b'?' || byte == b':'
}
