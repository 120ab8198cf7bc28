//! Scalars between quotes: which quotes stand round them, and what closes them on a line. It is public for the crates of this repository that find where
//! such a scalar ends.
ghost use Rattle.std.specs.Prelude.{◌≡◌, ◌+◌, ◌<◌, length, get_or, IfSome, option_map};
ghost use Rattle.lf_scalar.specs.Cells.{cells};
ghost use Rattle.lf_scalar.specs.Quoted.{quote_of};
ghost use Rattle.lf_scalar.specs.reading.Quoted.{closing_of, IsEffect};
ghost use Rattle.lf_scalar.specs.Splits.{split_of};

/// The quotes round a scalar or a key.
#[derive(Clone, Copy, PartialEq, Eq, Debug)]
pub enum Quotes {
    /// `'`, and `''` stands for one inside.
    Single,
    /// `"`, with escapes inside.
    Double,
}

/// The place of the quote that closes, in bytes from the first of `line`, which is what stands behind the opening quote, without the line's end. None where
/// nothing on the line closes. `at` is the offset of the first of these bytes in the source.
pub fn find_closing(kind: Quotes, line: &[u8], at: u32) -> Option<usize>
    ensures within { IfSome result (λ k. k < length line.now) }
    ensures quote { IfSome result (λ k. get_or line.now k 0 ≡ quote_of kind) }
    ensures value { option_map (split_of at line.now) result ≡ closing_of kind 0 (cells at line.now) }
{
    let mut skip = false;
    for (i, byte) in line.iter().enumerate() {
        if skip {
            skip = false;
        } else {
            match effect_of(kind, line, i, *byte) {
                ByteEffect::Closes => return Some(i),
                ByteEffect::TakesNext => skip = true,
                ByteEffect::Passes => {}
            }
        }
    }
    None
}

/// What a byte between quotes does.
#[derive(Clone, Copy, PartialEq, Eq, Debug)]
enum ByteEffect {
    /// It is the quote that closes.
    Closes,
    /// It takes the byte behind it.
    TakesNext,
    /// It stands alone.
    Passes,
}

/// What the byte at a place between quotes does.
fn effect_of(kind: Quotes, line: &[u8], i: usize, byte: u8) -> ByteEffect
    requires { i < length line.now }
    ensures { IsEffect kind byte (get_or line.now (i + 1) 0) result }
{
    match kind {
        Quotes::Single => {
            if byte != b'\'' {
                ByteEffect::Passes
            } else if i + 1 < line.len() && line[i + 1] == b'\'' {
                ByteEffect::TakesNext
            } else {
                ByteEffect::Closes
            }
        }
        Quotes::Double => match byte {
            b'"' => ByteEffect::Closes,
            b'\\' => ByteEffect::TakesNext,
            _ => ByteEffect::Passes,
        },
    }
}
