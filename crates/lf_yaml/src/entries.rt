//! Entries of block mappings: a key, and what stands behind its `:`.

use crate::row::ContentLine;
use lf_scalar::quotes::Quotes;

/// A key as it stands on its row.
#[derive(Clone, Copy)]
pub enum Key {
    /// Without quotes, the row's first `len` bytes.
    Bare { len: usize },
    /// Between quotes, the closing one at a place behind the first.
    Between { quote: Quotes, closing: usize },
}

/// An entry's key and what stands behind its `:`.
#[derive(Clone, Copy)]
pub struct EntryHead<'a> {
    pub key: Key,
    /// The offset of the `:`.
    pub colon: u32,
    /// What stands behind the `:` on its line.
    pub behind: &'a [u8],
}

/// An entry that a row begins.
#[derive(Clone, Copy)]
pub struct EntryRow<'a> {
    pub row: ContentLine<'a>,
    pub head: EntryHead<'a>,
    /// Where the line behind the row begins.
    pub behind: usize,
}

/// The row on which the value of an entry begins below the entry.
#[derive(Clone, Copy)]
pub struct Below<'a> {
    /// Whether it is an item at the indent of the entry's mapping.
    pub own: bool,
    pub row: ContentLine<'a>,
    /// Where the line behind the row begins.
    pub behind: usize,
}
