//! Names of files as reports show them.
ghost use Rattle.std.specs.Prelude.{◌≡◌, ◌<◌, ◌/◌, ◌%◌, false, [], ◌∷◌, ◌++◌, codes, string_bytes, IfOk, OnOk};
ghost use Rattle.std.specs.Char.{encode_utf8};
ghost use Rattle.std.specs.Fmt.{digit_glyph};
ghost use Rattle.std.specs.List.{list_all};
ghost use Rattle.lf_report.specs.Shown.{shown};
ghost use Rattle.lf_report.specs.views.PlainNames.{is_plain};

use lf_base::{Memory, Text};
use std::alloc::Global;

/// The name as a report shows it: control characters as `\x` and two hexadecimal digits, so that a name stays on its line.
pub fn shown_name(alloc: Global, name: &str) -> Result<Text, Memory>
    ensures { IfOk result (λ text. text ≡ shown name.now) }
{
    // Most names have no control character.
    if is_plain(name.as_bytes()) {
        return Text::of(alloc, name);
    }
    let mut text = String::new(alloc);
    for c in name.chars() {
        push_shown(&mut text, c)?;
    }
    Ok(Text::from_string(text))
}

/// Whether a report shows each of these bytes as it is.
fn is_plain(name: &[u8]) -> bool
    ensures { result ≡ list_all is_plain name.now }
{
    name.iter().all(|byte| is_plain_byte(*byte))
}

/// Whether a byte is no control character.
fn is_plain_byte(byte: u8) -> bool
    ensures { result ≡ is_plain byte }
{
    byte >= 32 && byte != 127
}

/// Appends a character as a report shows it.
fn push_shown(text: &mut String, c: char) -> Result<(), Memory>
    ensures { OnOk result (string_bytes text.new ≡ string_bytes text.old ++ shown (encode_utf8 c)) }
{
    if c.is_ascii_control() {
        return push_escaped(text, c);
    }
    text.push(c)?;
    Ok(())
}

/// Appends the code of a character of ASCII as `\x` and two hexadecimal digits.
fn push_escaped(text: &mut String, c: char) -> Result<(), Memory>
    requires { c < 128 }
    ensures { OnOk result (string_bytes text.new ≡ string_bytes text.old ++ (codes "\\x" ++ digit_glyph false (c / 16) ∷ digit_glyph false (c % 16) ∷ [])) }
{
    let code = u32::from(c);
    write!(text, "\\x{code:02x}")?;
    Ok(())
}
