//! A scalar that was read, before its text is known to be UTF-8.
//!
//! Each style has a reader (`read_plain`, `read_quoted`, `read_block`) over the bytes from the scalar's first on, which stand at an offset of the file and reach to its
//! end. Its clause `gives` says that it returns what the definitions of its style read there.

use crate::builder::ScalarBuilder;
use lf_base::Span;

/// A scalar that was read.
#[derive(Debug, Drop)]
pub struct RawScalar {
    /// The text, and the offset of each of its bytes.
    pub builder: ScalarBuilder,
    /// The offset of the text's end.
    pub end: u32,
    /// The scalar's place.
    pub span: Span,
}
