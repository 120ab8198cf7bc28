//! Texts between quotes.

use std::alloc::AllocError;

/// Writes a text between double quotes, on one line.
pub fn write_quoted(out: &mut String, text: &str) -> Result<(), AllocError> {
    out.push('"')?;
    for character in text.chars() {
        write_escaped(out, character)?;
    }
    out.push('"')
}

/// Writes a character, and in place of a quote, a backslash or a line break its escape.
fn write_escaped(out: &mut String, character: char) -> Result<(), AllocError> {
    match character {
        '"' => out.push_str("\\\""),
        '\\' => out.push_str("\\\\"),
        '\n' => out.push_str("\\n"),
        '\r' => out.push_str("\\r"),
        _ => out.push(character),
    }
}
