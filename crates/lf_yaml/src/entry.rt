//! Whether a row begins an entry.
ghost use Rattle.std.specs.Prelude.{◌≡◌, ℕ, suc, ◌+◌, ◌<◌, ◌≤◌, ◌^◌, length, get_or, option_map, IfSome, None, Some};
ghost use Rattle.lf_scalar.specs.Cells.{cell, cells};
ghost use Rattle.lf_scalar.specs.Plain.{begins_plain as begins_plain_of};
ghost use Rattle.lf_yaml.specs.reading.Trees.{quotes_of, entry_by, entry_of, opens_quote as opens_quote_of, sign_behind as sign_behind_of};
ghost use Rattle.lf_scalar.specs.Quoted.{quote_of as quote_byte};
ghost use Rattle.lf_yaml.specs.views.Headed.{headed, IsKeyIn};
ghost use Rattle.lf_yaml.specs.views.Shown.{shown};

use crate::entries::{EntryHead, Key};
use crate::head::is_left_out;
use crate::keys::find_sign;
use crate::row::ContentLine;
use lf_base::bytes::before;
use lf_scalar::lines::{blanks, past, trimmed_len};
use lf_scalar::markers::is_apart;
use lf_scalar::plain_signs::{is_plain_byte, is_sign_byte};
use lf_scalar::quotes::{Quotes, find_closing};

/// Whether a text begins as a plain scalar does.
pub fn begins_plain(text: &[u8]) -> bool
    ensures { (at : ℕ) → result ≡ begins_plain_of (cells at text.now) }
{
    match text {
        [] => false,
        [byte, rest @ ..] => is_plain_byte(*byte) || (is_sign_byte(*byte) && !is_apart(rest)),
    }
}

/// The quote that a byte is.
pub fn quote_of(byte: u8) -> Option<Quotes>
    ensures byte { IfSome result (λ quote. byte ≡ quote_byte quote) }
    ensures kind { (at : ℕ) → result ≡ quotes_of (cell byte at) }
{
    match byte {
        b'\'' => Some(Quotes::Single),
        b'"' => Some(Quotes::Double),
        _ => None,
    }
}

/// The entry that a row begins whose key has no quotes and isn't left out.
fn bare_entry(row: ContentLine<'_>) -> Option<EntryHead<'_>>
    ensures head { option_map (headed row.entry.at row.entry.text.now) result ≡ entry_by (shown row.entry) None }
    ensures room { IfSome result (λ h. h.colon + 1 + length h.behind.now ≤ 2 ^ 31) }
    ensures key { IfSome result (λ h. IsKeyIn row.entry.at row.entry.text.now h.key) }
{
    if !begins_plain(row.text) {
        return None;
    }
    match find_sign(false, row.text, row.at) {
        Some(place) => Some(EntryHead {
            key: Key::Bare {
                len: trimmed_len(before(row.text, place)),
            },
            colon: row.at + place as u32,
            behind: past(row.text, place + 1),
        }),
        None => None,
    }
}

/// The `:` behind a key between quotes, at its offset, and what stands behind it: blanks, `:`, and a blank or the line's end.
pub fn sign_behind(text: &[u8], at: u32) -> Option<(u32, &[u8])>
    requires room { at + length text.now ≤ 2 ^ 31 }
    ensures sign { option_map (λ x. (cell 58 x.0, cells (suc x.0) x.1.now)) result ≡ sign_behind_of (cells at text.entry.now) }
    ensures room { IfSome result (λ x. x.0 + 1 + length x.1.now ≤ 2 ^ 31) }
    ensures within { IfSome result (λ x. (at ≤ x.0) × (x.0 ≤ at + length text.entry.now)) }
{
    let skipped = blanks(text);
    match past(text, skipped) {
        [b':', rest @ ..] => Some((at + skipped as u32, rest)),
        [_, ..] => None,
        [] => None,
    }
}

/// The entry that a row begins whose key stands between quotes and isn't left out.
fn quoted_entry(row: ContentLine<'_>, quote: Quotes) -> Option<EntryHead<'_>>
    requires quote { get_or row.text.now 0 0 ≡ quote_byte quote }
    ensures head { option_map (headed row.entry.at row.entry.text.now) result ≡ entry_by (shown row.entry) (Some quote) }
    ensures room { IfSome result (λ h. h.colon + 1 + length h.behind.now ≤ 2 ^ 31) }
    ensures key { IfSome result (λ h. IsKeyIn row.entry.at row.entry.text.now h.key) }
{
    let inside = past(row.text, 1);
    let at = row.at + 1;
    match find_closing(quote, inside, at) {
        Some(closing) => {
            match sign_behind(past(inside, closing + 1), at + (closing as u32 + 1)) {
                Some((colon, behind)) => {
                    if is_apart(behind) {
                        Some(EntryHead {
                            key: Key::Between { quote, closing },
                            colon,
                            behind,
                        })
                    } else {
                        None
                    }
                }
                None => None,
            }
        }
        None => None,
    }
}

/// The entry that a row begins: a key that isn't left out, blanks, `:`, and a blank or the line's end.
#[tactic(auto, unfolding(crate::specs::reading::Trees::entry_of))]
pub fn find_entry(row: ContentLine<'_>) -> Option<EntryHead<'_>>
    ensures head { option_map (headed row.entry.at row.entry.text.now) result ≡ entry_of (shown row.entry) }
    ensures room { IfSome result (λ h. h.colon + 1 + length h.behind.now ≤ 2 ^ 31) }
    ensures key { IfSome result (λ h. IsKeyIn row.entry.at row.entry.text.now h.key) }
{
    // Most rows of values have no sign of a key, and need no further look.
    match head_of(row) {
        Some(head) => { if is_left_out(row) { None } else { Some(head) } }
        None => None,
    }
}

/// The key that a row begins, left out or not, blanks, `:`, and a blank or the line's end.
fn head_of(row: ContentLine<'_>) -> Option<EntryHead<'_>>
    ensures head { option_map (headed row.entry.at row.entry.text.now) result ≡ entry_by (shown row.entry) (quotes_of (shown row.entry).first) }
    ensures room { IfSome result (λ h. h.colon + 1 + length h.behind.now ≤ 2 ^ 31) }
    ensures key { IfSome result (λ h. IsKeyIn row.entry.at row.entry.text.now h.key) }
{
    match quote_of(row.text[0]) {
        Some(quote) => quoted_entry(row, quote),
        None => bare_entry(row),
    }
}

/// Whether a row begins with a quote that nothing on the row closes.
#[tactic(auto, unfolding(crate::specs::reading::Trees::opens_quote))]
pub fn opens_quote(row: ContentLine<'_>) -> bool
    ensures { result ≡ opens_quote_of (shown row.entry).first (shown row.entry).rest }
{
    match quote_of(row.text[0]) {
        Some(quote) => find_closing(quote, past(row.text, 1), row.at + 1).is_none(),
        None => false,
    }
}
