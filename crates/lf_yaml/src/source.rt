//! The file that is read.
ghost use Rattle.std.specs.Prelude.{◌≤◌, ◌^◌, length};
ghost use Rattle.std.specs.Str.{IsUtf8};

use std::alloc::Global;

/// A file whose text is read, and where its nodes are put.
#[derive(Clone, Copy)]
pub struct YamlSource<'a> {
    /// Where the nodes are put.
    pub alloc: Global,
    /// The file's bytes.
    pub bytes: &'a [u8],
    ghost utf8: { ∥ IsUtf8 bytes.now ∥₁ },
    ghost room: { length bytes.now ≤ 2 ^ 31 },
}
