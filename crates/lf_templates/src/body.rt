//! The bodies of actions that are open.

use crate::token::Word;
use lf_base::Span;

/// A body that is open.
#[derive(Clone, Copy, PartialEq, Eq, Debug)]
pub struct OpenBody {
    /// The word that opened it.
    pub word: Word,
    /// Whether references in it are hidden, by it or by one round it.
    pub hides: bool,
    /// Where the action stands that opened it.
    pub span: Span,
}
