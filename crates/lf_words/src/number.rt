//! Numbers in words.
ghost use Rattle.std.specs.Prelude.{◌≡◌, ℕ, [], ◌∷◌, IfSome, IfNone};
ghost use Rattle.std.specs.Bool.{nat_eq};
ghost use Rattle.std.specs.List.{starts_with};
ghost use Rattle.lf_words.specs.Grammar.{IsDecimal};

/// The number from 1 to `most` that a word writes in decimal, without a sign or a leading zero.
pub fn number(word: &str, most: u32) -> Option<u32>
    ensures some { IfSome result (IsDecimal most word.now) }
    ensures none { IfNone result ((n : ℕ) → IsDecimal most word.now n → ⊥) }
{
    if begins_with(word, b'+') || begins_with(word, b'0') {
        return None;
    }
    match word.parse::<u32>() {
        Ok(n) if n <= most => Some(n),
        _ => None,
    }
}

/// Whether the first byte of a word is this one.
pub fn begins_with(word: &str, byte: u8) -> bool
    ensures { result ≡ starts_with nat_eq word.now (byte ∷ []) }
{
    word.as_bytes().first() == Some(&byte)
}
