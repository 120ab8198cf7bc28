//! What is found in a template.

use lf_base::{Span, Text};

/// A reference to a label: `$labels.NAME`, `.Labels.NAME` or `$.Labels.NAME`.
#[derive(Debug, Drop)]
pub struct Reference {
    /// The name of the label.
    pub label: Text,
    /// Where in the source the reference stands.
    pub span: Span,
}
