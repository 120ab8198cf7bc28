//! The text of a plain scalar in a flow collection.
ghost use Rattle.std.specs.Prelude.{not, ◌≡◌, ℕ, ◌+◌, ◌<◌, ◌≤◌, length, get_or, take, drop, take_while, IfSome, option_map};
ghost use Rattle.lf_scalar.specs.Cells.{cell, cells};
ghost use Rattle.lf_scalar.specs.Plain.{before_comment};
ghost use Rattle.lf_yaml.specs.Flow.{is_flow_sign as is_flow_sign_of, flow_text, colon_in};

use crate::keys::is_flow_sign;
use lf_base::bytes::before;
use lf_scalar::comments::find_comment;
use lf_scalar::lines::{past, trimmed_len};
use lf_scalar::markers::is_apart;

/// How many bytes stand before the first `,` `[` `]` `{` `}` or `?` of a text.
fn find_flow_sign(text: &[u8]) -> usize
    ensures within { result ≤ length text.now }
    ensures text { (at : ℕ) → take_while (λ c. not (is_flow_sign_of c)) (cells at text.now) ≡ cells at (take result text.now) }
    ensures ascii { result < length text.now → get_or text.now result 0 < 128 }
{
    for (i, byte) in text.iter().enumerate() {
        if is_flow_sign(*byte) {
            return i;
        }
    }
    text.len()
}

/// The part of a text before a comment.
fn uncommented(text: &[u8]) -> &[u8]
    ensures within { length result.now ≤ length text.entry.now }
    ensures text { (at : ℕ) → before_comment (cells at text.entry.now) ≡ cells at result.now }
    ensures front { result.now ≡ take (length result.now) text.entry.now }
    ensures ascii { length result.now < length text.entry.now → get_or text.entry.now (length result.now) 0 < 128 }
{
    match find_comment(text) {
        Some(place) => before(text, place),
        None => text,
    }
}

/// How many bytes the text of a plain scalar has that begins in a flow collection: it ends before a comment, before a sign of flow collections, and before the blanks there.
pub fn flow_text_len(text: &[u8]) -> usize
    ensures within { result ≤ length text.now }
    ensures text { (at : ℕ) → flow_text (cells at text.now) ≡ cells at (take result text.now) }
    ensures ascii { result < length text.now → get_or text.now result 0 < 128 }
{
    let part = uncommented(before(text, find_flow_sign(text)));
    trimmed_len(part)
}

/// The place of the first `:` among a text's first `len` bytes that stands before a blank or the line's end.
pub fn find_colon(text: &[u8], len: usize) -> Option<usize>
    requires within { len ≤ length text.now }
    ensures within { IfSome result (λ k. k < len) }
    ensures value { (at : ℕ) → option_map (λ k. cell 58 (at + k)) result ≡ colon_in (cells at (take len text.now)) (cells (at + len) (drop len text.now)) }
{
    let mut i = 0;
    while i < len {
        if text[i] == b':' && is_apart(past(text, i + 1)) {
            return Some(i);
        }
        i += 1;
    }
    None
}
