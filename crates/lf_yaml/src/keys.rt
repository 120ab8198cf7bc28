//! Keys without quotes: where their `:` stands; and which keys are left out.
ghost use Rattle.std.specs.Prelude.{true, false, ◌≡◌, ◌&&◌, not, eqb, nat_lt, cond, ℕ, ◌+◌, ◌<◌, ◌≤◌, ◌^◌, length, get_or, IfSome, option_map};
ghost use Rattle.lf_scalar.specs.Cells.{cell, cells};
ghost use Rattle.lf_scalar.specs.Lines.{is_blank, begins_with};
ghost use Rattle.lf_scalar.specs.Plain.{before_blank};
ghost use Rattle.lf_scalar.specs.Folding.{trimmed as trimmed_of};
ghost use Rattle.lf_yaml.specs.Keys.{key_in, begins_character, characters, is_too_far as is_too_far_of, is_key_left_out as is_key_left_out_of, has_bare_left_out as has_bare_left_out_of, has_key_left_out as has_key_left_out_of};
ghost use Rattle.lf_scalar.specs.Splits.{split_of};
ghost use Rattle.lf_yaml.specs.views.Signs.{begins_null, stops_of};

use crate::entry::begins_plain;
use crate::far_keys::has_far_key;
use lf_base::bytes::before;
use lf_scalar::lines::{is_blank_byte, past, trimmed_len};
use lf_scalar::markers::is_apart;
use lf_scalar::null_text::is_null_text;

/// Whether a byte is one of `,` `[` `]` `{` `}`, which end a text in a flow collection, or `?`, which none has.
pub fn is_flow_sign(byte: u8) -> bool
    ensures { (at : ℕ) → result ≡ stops_of true (cell byte at) }
{
    matches!(byte, b',' | b'[' | b']' | b'{' | b'}' | b'?')
}

/// Whether a text begins with `#`.
fn begins_hash(text: &[u8]) -> bool
    ensures { (at : ℕ) → result ≡ begins_with 35 (cells at text.now) }
{
    match text {
        [b'#', ..] => true,
        [_, ..] => false,
        [] => false,
    }
}

/// Whether a byte is the `:` that ends a key before this text.
fn ends_here(byte: u8, rest: &[u8]) -> bool
    ensures sign { result ≡ true → byte ≡ 58 }
    ensures value { (at : ℕ) → result ≡ (eqb byte 58 && before_blank (cells at rest.now)) }
{
    byte == b':' && is_apart(rest)
}

/// Whether a key stops before a byte.
fn stops_here(flow: bool, byte: u8) -> bool
    ensures { (at : ℕ) → result ≡ stops_of flow (cell byte at) }
{
    flow && is_flow_sign(byte)
}

/// Whether a comment begins behind a byte.
fn comments_here(byte: u8, rest: &[u8]) -> bool
    ensures { (at : ℕ) → result ≡ (is_blank (cell byte at) && begins_with 35 (cells at rest.now)) }
{
    is_blank_byte(byte) && begins_hash(rest)
}

/// Whether a key goes on with a byte whatever stands behind it, as it does with all letters of a block mapping. What ends or stops it there is `:` or comes before that.
fn goes_on(flow: bool, byte: u8) -> bool
    ensures value { result ≡ (not flow && nat_lt 58 byte) }
    ensures stops { result ≡ true → flow ≡ false }
    ensures behind { result ≡ true → 58 < byte }
{
    !flow && b':' < byte
}

/// The place of the `:` that ends a key without quotes, in a flow mapping or a block mapping. None where a comment, a sign of flow collections or the line's end comes first.
pub fn find_sign(flow: bool, text: &[u8], at: u32) -> Option<usize>
    ensures within { IfSome result (λ k. k < length text.now) }
    ensures sign { IfSome result (λ k. get_or text.now k 0 ≡ 58) }
    ensures value { option_map (split_of at text.now) result ≡ key_in (stops_of flow) before_blank (cells at text.now) }
{
    for (i, byte) in text.iter().enumerate() {
        if goes_on(flow, *byte) {
            continue;
        }
        let rest = past(text, i + 1);
        if ends_here(*byte, rest) {
            return Some(i);
        }
        if stops_here(flow, *byte) {
            return None;
        }
        if comments_here(*byte, rest) {
            return None;
        }
    }
    None
}

/// A text without the blanks at its end.
pub fn trimmed(text: &[u8]) -> &[u8]
    ensures { (at : ℕ) → trimmed_of is_blank (cells at text.entry.now) ≡ cells at result.now }
{
    before(text, trimmed_len(text))
}

/// How many characters begin with a byte: one, or none where it is a later byte of a character.
fn begun_by(byte: u8) -> usize
    ensures few { result ≤ 1 }
    ensures value { (at : ℕ) → result ≡ cond (begins_character (cell byte at)) 1 0 }
{
    if byte < 0x80 || byte >= 0xC0 { 1 } else { 0 }
}

/// How many characters a text has.
fn char_count(text: &[u8]) -> usize
    ensures { (at : ℕ) → result ≡ characters (cells at text.now) }
{
    let mut count: usize = 0;
    for (i, byte) in text.iter().enumerate() {
        count += begun_by(*byte);
    }
    count
}

/// Whether a `:` stands too far behind the start of its key: more than 1,024 characters stand before it. `front` is what stands there.
pub fn is_too_far(front: &[u8]) -> bool
    ensures { (at : ℕ) → result ≡ is_too_far_of (cells at front.now) }
{
    char_count(front) > 1024
}

/// Whether a key without quotes is left out: it is null, or its `:` stands too far behind its start. `front` is what stands before the `:`.
pub fn is_key_left_out(front: &[u8]) -> bool
    ensures { (at : ℕ) → result ≡ is_key_left_out_of (cells at front.now) }
{
    is_null_text(trimmed(front)) || is_too_far(front)
}

/// Whether a text begins with the first byte of `null`, `Null`, `NULL` or `~`.
fn begins_null(text: &[u8]) -> bool
    ensures { result ≡ begins_null text.now }
{
    match text {
        [b'n' | b'N' | b'~', ..] => true,
        [_, ..] => false,
        [] => false,
    }
}

/// Whether a text begins with a key without quotes of a block mapping that is left out.
fn has_bare_left_out(text: &[u8], at: u32) -> bool
    ensures { result ≡ has_bare_left_out_of (cells at text.now) }
{
    // Hardly a text is long or begins as a null, and in no other one is the key left out, wherever its `:` stands.
    if !begins_null(text) && text.len() <= 1024 {
        return false;
    }
    if !begins_plain(text) {
        return false;
    }
    match find_sign(false, text, at) {
        Some(place) => is_key_left_out(before(text, place)),
        None => false,
    }
}

/// Whether a text begins with a key of a block mapping that is left out.
pub fn has_key_left_out(text: &[u8], at: u32) -> bool
    requires some { 0 < length text.now }
    requires room { at + length text.now ≤ 2 ^ 31 }
    ensures { result ≡ has_key_left_out_of (cells at text.now) }
{
    has_bare_left_out(text, at) || has_far_key(text, at)
}
