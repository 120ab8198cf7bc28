//! The call `templates`: the references to labels in a template, or its refusal, as JSON.

use crate::answer::refused;
use crate::case::TestCase;
use crate::timing::Stopwatch;
use crate::tokens::source_of;
use crate::writer::Writer;
use anyhow::Result;
use lf_ast::Template;
use lf_templates::{Reference, references};
use std::alloc::Global;
use std::time::Duration;

/// Writes what `references` answers on the text of a case.
pub fn answer(alloc: Global, case: &TestCase, out: &mut Writer) -> Result<()> {
    let (text, from) = source_of(alloc, case.text()?)?;
    match references(alloc, &Template { text, from }) {
        Ok(found) => write_references(out, found.as_slice()),
        Err(refusal) => out.refusal(refusal),
    }
    Ok(())
}

/// The processor time of `references` on a text.
pub fn time(rt: &HostRuntime, text: &str) -> Result<Duration> {
    let (text, from) = source_of(rt.alloc(), text)?;
    let template = Template { text, from };
    let watch = Stopwatch::start(rt);
    let found = references(rt.alloc(), &template);
    watch.taken(rt, found.map_err(refused))
}

/// The label and the span of each reference.
fn write_references(out: &mut Writer, found: &[Reference]) {
    out.open("[");
    for reference in found {
        out.open("{");
        out.member("label", reference.label.as_str());
        out.span_member(reference.span);
        out.close("}");
    }
    out.close("]");
}
