//! Parts of bytes, and bytes behind a backslash.
ghost use Rattle.std.specs.Prelude.{◌≡◌, ◌≤◌, ◌&&◌, ◌==◌, drop, length, not, take};

/// The part of the bytes that begins at a place.
pub fn after(bytes: &[u8], place: usize) -> &[u8]
    requires { place ≤ length bytes.now }
    ensures { result.now ≡ drop place bytes.now }
{
    bytes.split_at(place).1
}

/// The part of the bytes that ends at a place.
pub fn before(bytes: &[u8], place: usize) -> &[u8]
    requires { place ≤ length bytes.now }
    ensures { result.now ≡ take place bytes.now }
{
    bytes.split_at(place).0
}

/// Whether a byte is the one that is looked for, and stands behind no backslash.
pub fn is_bare(skip: bool, byte: u8, wanted: u8) -> bool
    ensures { result ≡ (not skip && byte == wanted) }
{
    !skip && byte == wanted
}
