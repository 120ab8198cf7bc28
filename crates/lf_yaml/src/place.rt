//! Where a flow collection is read on.
ghost use Rattle.std.specs.Prelude.{◌+◌, ◌≤◌, ◌^◌, length};

/// What is left of a line behind a part of a flow collection, and where the lines behind it begin. Offsets are in bytes from 0.
#[derive(Clone, Copy)]
pub struct FlowCursor<'a> {
    /// The offset of the line's first byte.
    pub begin: u32,
    /// The offset of the first byte that is left, or of the line's end.
    pub at: u32,
    /// What is left up to the line's end.
    pub text: &'a [u8],
    /// The offset of the first byte of the line behind this one, or the file's length.
    pub next: usize,
    ghost order: { begin ≤ at },
    ghost room: { at + length text.now ≤ 2 ^ 31 },
}
