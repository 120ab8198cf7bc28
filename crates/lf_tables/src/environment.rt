//! The rows of recorded names.
ghost use Rattle.std.specs.Prelude.{◌<◌, length};
ghost use Rattle.lf_semantics.specs.ClassRows.{HasShape};
ghost use Rattle.lf_semantics.specs.Environments.{IsEnvironment};

use crate::classes::write_class;
use lf_classes::{Row, TextSet, Universe};
use lf_flow::Env;
use std::alloc::AllocError;

/// Writes the row of each name that has one, under the name.
pub fn write_environment(
    out: &mut String,
    universe: &Universe,
    env: &Env,
    names: &TextSet,
) -> Result<(), AllocError>
    requires { IsEnvironment universe.now env.now }
{
    out.push_str("environment\n")?;
    for place in 0..names.len() {
        write_name(out, universe, env, names.get(place).as_str())?;
    }
    Ok(())
}

/// Writes a name and its row, if it has one.
fn write_name(
    out: &mut String,
    universe: &Universe,
    env: &Env,
    name: &str,
) -> Result<(), AllocError>
    requires { IsEnvironment universe.now env.now }
{
    match env.row(name) {
        Some(row) => {
            writeln!(out, "  {name}")?;
            write_row(out, universe, row)
        }
        None => Ok(()),
    }
}

/// Writes a line for each label with its classes in a row, and one line for the empty row.
fn write_row(out: &mut String, universe: &Universe, row: &Row) -> Result<(), AllocError>
    requires { HasShape universe.now row.now }
{
    if row.is_empty() {
        return out.push_str("    empty\n");
    }
    for label in 0..universe.labels() {
        write_set(out, universe, row, label)?;
    }
    Ok(())
}

/// Writes a label and those of its classes that a row has, as a line.
fn write_set(out: &mut String, universe: &Universe, row: &Row, label: u32) -> Result<(), AllocError>
    requires row { HasShape universe.now row.now }
    requires label { label < length universe.now.named }
{
    write!(out, "    {}:", universe.name(label).as_str())?;
    for class in 0..universe.classes(label) {
        if row.has(label, class) {
            write_class(out, universe, label, class)?;
        }
    }
    out.push('\n')
}
