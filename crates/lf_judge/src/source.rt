//! A file as it was read.

use lf_base::{Seq, Text};

/// A file as it was read: its name, as it was asked for, and its bytes.
#[derive(Debug, Drop)]
pub struct Source {
    pub name: Text,
    pub bytes: Seq<u8>,
}
