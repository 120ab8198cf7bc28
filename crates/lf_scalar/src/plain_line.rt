//! One line of a plain scalar.
ghost use Rattle.std.specs.Prelude.{◌≡◌, ℕ, ◌+◌, ◌<◌, ◌≤◌, ◌^◌, length, get_or, take, IfSome, IfOk, option_map};
ghost use Rattle.lf_scalar.specs.Cells.{cell, cells};
ghost use Rattle.lf_scalar.specs.Lines.{is_blank};
ghost use Rattle.lf_scalar.specs.Folding.{trimmed};
ghost use Rattle.lf_scalar.specs.Plain.{before_comment, has_comment, key_sign, is_commented};
ghost use Rattle.lf_scalar.specs.reading.Quoted.{line_at};
ghost use Rattle.lf_scalar.specs.views.Built.{TextAnswers};
ghost use Rattle.lf_scalar.specs.reading.Plain.{key_at, unless_key, plain_line};

use crate::builder::ScalarBuilder;
use crate::comments::find_comment;
use crate::lines::{blanks, is_blank_byte, past, trimmed_len};
use lf_base::bytes::before;
use lf_base::{Kind, Refusal, Span};

/// Whether a `:` stands at a place and a blank or the text's end behind it.
fn is_key_sign(text: &[u8], i: usize) -> bool
    requires { i < length text.now }
    ensures { result ≡ key_at text.now i }
{
    text[i] == b':' && (i + 1 == text.len() || is_blank_byte(text[i + 1]))
}

/// The place of the first `:` before a blank or the text's end.
pub fn find_key_sign(text: &[u8]) -> Option<usize>
    ensures within { IfSome result (λ k. k < length text.now) }
    ensures value { (at : ℕ) → key_sign (cells at text.now) ≡ option_map (λ k. cell (get_or text.now k 0) (at + k)) result }
{
    for i in 0..text.len() {
        if is_key_sign(text, i) {
            return Some(i);
        }
    }
    None
}

/// What a line of a plain scalar gives, behind its first blanks.
#[derive(Clone, Copy, PartialEq, Eq, Debug)]
pub struct PlainPart {
    /// How many bytes, without a comment and the blanks at the end.
    pub len: usize,
    /// Whether the line ends in a comment.
    pub commented: bool,
}

/// What a line gives that begins with no blank.
pub fn plain_part(text: &[u8]) -> PlainPart
    ensures within { result.len ≤ length text.now }
    ensures text { (at : ℕ) → trimmed is_blank (before_comment (cells at text.now)) ≡ cells at (take result.len text.now) }
    ensures comment { (at : ℕ) → has_comment (cells at text.now) ≡ result.commented }
{
    match find_comment(text) {
        Some(place) => PlainPart {
            len: trimmed_len(before(text, place)),
            commented: true,
        },
        None => PlainPart {
            len: trimmed_len(text),
            commented: false,
        },
    }
}

/// Appends a text of a plain scalar, which is refused where it has the sign of a key.
pub fn push_bare(builder: &mut ScalarBuilder, text: &[u8], at: u32) -> Result<(), Refusal>
    requires { at + length text.now < 2 ^ 32 }
    ensures { TextAnswers result builder.old builder.new (unless_key (cells at text.now) (key_sign (cells at text.now))) }
{
    if let Some(place) = find_key_sign(text) {
        let start = at + place as u32;
        return Err(Refusal::At {
            kind: Kind::NotANode,
            span: Span {
                start,
                end: start + 1,
            },
        });
    }
    match builder.copy(text, at) {
        Ok(()) => Ok(()),
        Err(_) => Err(Refusal::Memory),
    }
}

/// Appends what a line of a plain scalar gives, and tells whether it ends in a comment. It is refused where it has the sign of a key.
pub fn push_plain_line(builder: &mut ScalarBuilder, line: &[u8], at: u32) -> Result<bool, Refusal>
    requires { at + length line.now < 2 ^ 32 }
    ensures text { (break_at : ℕ) → TextAnswers result builder.old builder.new (plain_line (line_at at line.now break_at)) }
    ensures comment { IfOk result (λ commented. (break_at : ℕ) → is_commented (line_at at line.now break_at) ≡ commented) }
{
    let skipped = blanks(line);
    let text = past(line, skipped);
    let part = plain_part(text);
    match push_bare(builder, before(text, part.len), at + skipped as u32) {
        Ok(()) => Ok(part.commented),
        Err(refusal) => Err(refusal),
    }
}
