//! Where a comment begins on a line. It is public for the crates of this repository that read lines beside scalars.
ghost use Rattle.std.specs.Prelude.{◌≡◌, ℕ, ◌<◌, length, get_or, take, eqb, IfSome, is_some, unwrap_or};
ghost use Rattle.lf_scalar.specs.Cells.{cells};
ghost use Rattle.lf_scalar.specs.Plain.{before_comment, has_comment};
ghost use Rattle.lf_scalar.specs.reading.Plain.{comment_at};

use crate::lines::is_blank_byte;

/// Whether a `#` stands at a place.
fn is_hash(line: &[u8], place: usize) -> bool
    ensures { result ≡ eqb (get_or line.now place 0) 35 }
{
    place < line.len() && line[place] == b'#'
}

/// Whether a blank stands at a place and the `#` of a comment behind it.
fn begins_comment(line: &[u8], i: usize) -> bool
    requires { i < length line.now }
    ensures { result ≡ comment_at line.now i }
{
    is_blank_byte(line[i]) && is_hash(line, i + 1)
}

/// The place of the blank before a comment, if a line has one, in bytes from the first of `line`, which is passed without its end. A `#` at the front
/// of `line` begins no comment here, since no blank stands before it.
pub fn find_comment(line: &[u8]) -> Option<usize>
    ensures within { IfSome result (λ k. k < length line.now) }
    ensures text { (at : ℕ) → before_comment (cells at line.now) ≡ cells at (take (unwrap_or result (length line.now)) line.now) }
    ensures comment { (at : ℕ) → has_comment (cells at line.now) ≡ is_some result }
    ensures ascii { IfSome result (λ k. get_or line.now k 0 < 128) }
{
    for i in 0..line.len() {
        if begins_comment(line, i) {
            return Some(i);
        }
    }
    None
}
