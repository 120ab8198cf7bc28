//! The rows of a file: its content lines, and what is left of one behind a sign.
ghost use Rattle.std.specs.Prelude.{◌+◌, ◌<◌, ◌≤◌, ◌^◌, length};

/// A content line from its first character that isn't a space, or what is left of one behind a sign from its first character that isn't a blank. Offsets are in bytes from 0.
#[derive(Clone, Copy)]
pub struct ContentLine<'a> {
    /// The offset of the line's first byte.
    pub begin: u32,
    /// The offset of the row's first byte.
    pub at: u32,
    /// The row's bytes up to the line's end.
    pub text: &'a [u8],
    ghost full: { 0 < length text.now },
    ghost order: { begin ≤ at },
    ghost room: { at + length text.now ≤ 2 ^ 31 },
}
