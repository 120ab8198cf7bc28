//! Strings in quotes: where they close.
ghost use Rattle.std.specs.Prelude.{◌≡◌, ◌<◌, false, length, IfSome};
ghost use Rattle.lf_base.specs.reading.Closing as reading;

use crate::bytes::is_bare;

/// How many of these bytes stand before the quote that closes, where one does, and does before the byte that stops, if there is one. A backslash takes the byte behind it
/// with it, so that this one closes nothing; but it may stop.
pub fn closing(quote: u8, stop: Option<u8>, rest: &[u8]) -> Option<usize>
    ensures value { result ≡ reading.closing stop quote false rest.now }
    ensures within { IfSome result (λ n. n < length rest.now) }
{
    let mut skip = false;
    for (i, byte) in rest.iter().enumerate() {
        if is_bare(skip, *byte, quote) {
            return Some(i);
        }
        if stops(stop, *byte) {
            return None;
        }
        skip = is_bare(skip, *byte, b'\\');
    }
    None
}

/// Whether a byte is the one that stops.
fn stops(stop: Option<u8>, byte: u8) -> bool
    ensures { result ≡ reading.stops stop byte }
{
    match stop {
        None => false,
        Some(stop) => byte == stop,
    }
}
