//! The texts of plain scalars that stand for no value. It is public for the crates of this repository that make plain scalars of their own.
ghost use Rattle.std.specs.Prelude.{◌≡◌, ℕ, bytes_eq};
ghost use Rattle.std.specs.List.{list_any};
ghost use Rattle.lf_scalar.specs.Cells.{cells};
ghost use Rattle.lf_scalar.specs.Plain.{is_null, nulls};

/// Whether the text of a plain scalar is `null`, `Null`, `NULL` or `~`, which stand for the empty text. `text` is all of it, without the blanks round it.
#[tactic(auto, using(crate::proofs::NullText::null_by))]
pub fn is_null_text(text: &[u8]) -> bool
    ensures bytes { result ≡ list_any (bytes_eq text.now) nulls }
    ensures value { (at : ℕ) → result ≡ is_null (cells at text.now) }
{
    text == b"null".as_slice()
        || text == b"Null".as_slice()
        || text == b"NULL".as_slice()
        || text == b"~".as_slice()
}
