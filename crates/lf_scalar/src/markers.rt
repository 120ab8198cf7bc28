//! The markers between the documents of a file. It is public for the crates of this repository that read lines beside scalars.
ghost use Rattle.std.specs.Prelude.{◌≡◌, ℕ, ◌||◌};
ghost use Rattle.lf_scalar.specs.Cells.{cells};
ghost use Rattle.lf_scalar.specs.Plain.{before_blank};
ghost use Rattle.lf_scalar.specs.Markers.{is_thrice as is_thrice_of};

use crate::lines::is_blank_byte;

/// Whether a text is empty or begins with a blank.
pub fn is_apart(text: &[u8]) -> bool
    ensures { (at : ℕ) → result ≡ before_blank (cells at text.now) }
{
    match text {
        [] => true,
        [byte, ..] => is_blank_byte(*byte),
    }
}

/// Whether a text begins with a byte three times, and then a blank or the line's end.
pub fn is_thrice(byte: u8, text: &[u8]) -> bool
    ensures { (at : ℕ) → result ≡ is_thrice_of byte (cells at text.now) }
{
    match text {
        [] => false,
        [_] => false,
        [_, _] => false,
        [a, b, c, rest @ ..] => *a == byte && *b == byte && *c == byte && is_apart(rest),
    }
}

/// Whether a line, without its end, begins with `---` or `...`, and then a blank or the line's end.
pub fn is_marker(line: &[u8]) -> bool
    ensures { (at : ℕ) → result ≡ (is_thrice_of 45 (cells at line.now) || is_thrice_of 46 (cells at line.now)) }
{
    is_thrice(b'-', line) || is_thrice(b'.', line)
}
