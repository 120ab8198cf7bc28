//! Which characters a rule file may hold.
ghost use Rattle.std.specs.Prelude.{◌≡◌, ◌<◌, ◌≤◌, ◌^◌, ◌+◌, ◌-◌, length, drop, Ok, Err, IfOk, IfErr, IfSome, MatchOption};
ghost use Rattle.lf_base.specs.declared.refusal.Refusal.{Refusal};
ghost use Rattle.lf_base.specs.declared.refusal.Refusal.TheVariants as refusal_of;
ghost use Rattle.lf_base.specs.declared.fault.Fault.{Fault};
ghost use Rattle.lf_base.specs.declared.kind.Kind.TheVariants.{BadUtf8};
ghost use Rattle.lf_yaml.specs.Characters.{mark_length as mark_length_of, is_wrong, is_wrong_control, is_high_control as is_high_control_of, is_left_out as is_left_out_of, FirstWrong, NoneWrong, AreCharacters, BreaksCharacters};

use lf_base::{Kind, Refusal, Span};
use lf_scalar::lines::{fault_at, past};

/// The text of a file whose bytes are UTF-8 and hold only characters that are allowed: tabs, line feeds, carriage returns right before a line feed, and the printable
/// characters of YAML 1.2 but U+0085, U+2028 and U+2029; and U+FEFF only at the file's start.
///
/// Refused as `BadUtf8` at the first byte of the first sequence that isn't UTF-8, with a span of one byte; in a file that is UTF-8 as `BadChar` at the first
/// character that isn't allowed.
pub fn check_characters(bytes: &[u8]) -> Result<&str, Refusal>
    requires room { length bytes.now ≤ 2 ^ 31 }
    ensures found { IfOk result (λ s. (s.now ≡ bytes.now) × AreCharacters bytes.now) }
    ensures refused { IfErr result (λ e. (f : Fault) × BreaksCharacters bytes.now f × (e ≡ refusal_of.At f.kind f.span)) }
{
    let text = match str::from_utf8(bytes) {
        Ok(text) => text,
        Err(e) => return Err(bad_utf8(e.valid_up_to())),
    };
    match first_wrong(bytes) {
        Some(offset) => Err(fault_at(Kind::BadChar, bytes, offset, 0)),
        None => Ok(text),
    }
}

/// The refusal of the byte at an offset, where the file stops to be UTF-8.
fn bad_utf8(offset: usize) -> Refusal
    requires { offset < 2 ^ 32 - 1 }
    ensures { result ≡ refusal_of.At BadUtf8 (record { start = offset; end = offset + 1 }) }
{
    let start = offset as u32;
    Refusal::At {
        kind: Kind::BadUtf8,
        span: Span {
            start,
            end: start + 1,
        },
    }
}

/// How many bytes a byte order mark at the file's start has.
pub fn mark_length(bytes: &[u8]) -> usize
    ensures { result ≡ mark_length_of bytes.now }
{
    if bytes.starts_with(b"\xEF\xBB\xBF") {
        3
    } else {
        0
    }
}

/// The offset of the first character that isn't allowed.
fn first_wrong(bytes: &[u8]) -> Option<usize>
    ensures found { MatchOption result (NoneWrong bytes.now) (λ k. FirstWrong bytes.now k) }
    ensures within { IfSome result (λ k. k < length bytes.now) }
{
    for offset in mark_length(bytes)..bytes.len() {
        if is_wrong_at(bytes, offset) {
            return Some(offset);
        }
    }
    None
}

/// Whether a character at an offset isn't allowed there.
fn is_wrong_at(bytes: &[u8], offset: usize) -> bool
    requires { offset < length bytes.now }
    ensures { result ≡ is_wrong (drop offset bytes.now) }
{
    if bytes[offset] < 0x80 {
        return is_control_at(bytes, offset);
    }
    let rest = past(bytes, offset);
    is_high_control(rest) || is_left_out(rest)
}

/// Whether a control character stands at an offset that isn't allowed there.
fn is_control_at(bytes: &[u8], offset: usize) -> bool
    requires { offset < length bytes.now }
    ensures { result ≡ is_wrong_control (drop offset bytes.now) }
{
    // Nearly all characters are printable, and are told by two comparisons.
    if bytes[offset] >= 0x20 {
        return bytes[offset] == 0x7f;
    }
    match bytes[offset] {
        b'\t' | b'\n' => false,
        b'\r' => offset + 1 == bytes.len() || bytes[offset + 1] != b'\n',
        _ => true,
    }
}

/// Whether some bytes begin with one of U+0080 to U+009F.
fn is_high_control(bytes: &[u8]) -> bool
    ensures { result ≡ is_high_control_of bytes.now }
{
    match bytes {
        [] => false,
        [_] => false,
        [first, second, ..] => *first == 0xC2 && *second < 0xA0,
    }
}

/// Whether some bytes begin with U+2028, U+2029, U+FEFF, U+FFFE or U+FFFF.
fn is_left_out(bytes: &[u8]) -> bool
    ensures { result ≡ is_left_out_of bytes.now }
{
    bytes.starts_with(b"\xE2\x80\xA8")
        || bytes.starts_with(b"\xE2\x80\xA9")
        || bytes.starts_with(b"\xEF\xBB\xBF")
        || bytes.starts_with(b"\xEF\xBF\xBE")
        || bytes.starts_with(b"\xEF\xBF\xBF")
}
