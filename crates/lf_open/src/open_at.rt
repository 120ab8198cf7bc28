//! Open constructs where they stand.

use crate::construct::Construct;
use lf_base::Span;

/// An open construct, and where it stands: at a span, in bytes of the file of the rule with this number, counted from 0.
#[derive(Clone, Copy, Drop, Debug)]
pub struct OpenAt {
    pub construct: Construct,
    pub rule: u32,
    pub span: Span,
}
