//! Labels and their classes.
ghost use Rattle.std.specs.Prelude.{◌<◌, ◌+◌, length};
ghost use Rattle.lf_semantics.specs.Listing.{named_at};

use crate::quoting::write_quoted;
use lf_classes::Universe;
use std::alloc::AllocError;

/// Writes a line for each label of a universe, with its classes.
pub fn write_labels(out: &mut String, universe: &Universe) -> Result<(), AllocError> {
    out.push_str("labels\n")?;
    for label in 0..universe.labels() {
        out.push_str("  ")?;
        write_label(out, universe, label)?;
    }
    Ok(())
}

/// Writes a label and all its classes, to the line's end.
fn write_label(out: &mut String, universe: &Universe, label: u32) -> Result<(), AllocError>
    requires { label < length universe.now.named }
{
    out.push_str(universe.name(label).as_str())?;
    out.push(':')?;
    for class in 0..universe.classes(label) {
        write_class(out, universe, label, class)?;
    }
    out.push('\n')
}

/// Writes a blank and a class: its text, or `*` for 'any other text'.
pub fn write_class(
    out: &mut String,
    universe: &Universe,
    label: u32,
    class: u32,
) -> Result<(), AllocError>
    requires label { label < length universe.now.named }
    requires class { class < length (named_at universe.now label) + 2 }
{
    out.push(' ')?;
    match universe.class_text(label, class) {
        Some(text) => write_quoted(out, text.as_str()),
        None => out.push('*'),
    }
}
