//! The header of a block scalar, which stands behind its sign.
ghost use Rattle.std.specs.Prelude.{◌≡◌, false, ℕ, ◌+◌, ◌<◌, length, drop, IfErr};
ghost use Rattle.lf_scalar.specs.Cells.{cells};
ghost use Rattle.lf_scalar.specs.reading.Block.{header_from, ends_header};
ghost use Rattle.lf_scalar.specs.reading.Quoted.{wrong_behind as first_wrong};
ghost use Rattle.lf_scalar.specs.reading.Body.{IsMark, header_told, header_with};

use crate::block::Chomp;
use crate::lines::{past, wrong_behind};

/// What a header says.
#[derive(Clone, Copy, PartialEq, Eq, Debug)]
pub struct Header {
    pub chomp: Chomp,
    /// The digit that tells the content indent, if there is one.
    pub digit: Option<u8>,
}

/// What a byte of a header is.
#[derive(Clone, Copy, PartialEq, Eq, Debug)]
pub enum HeaderByte {
    /// `-` or `+`.
    Sign(Chomp),
    /// 1 to 9.
    Digit(u8),
    /// Anything else.
    Neither,
}

/// What a byte of a header is.
pub fn mark_of(byte: u8) -> HeaderByte
    ensures value { IsMark byte result }
{
    match byte {
        b'-' => HeaderByte::Sign(Chomp::Strip),
        b'+' => HeaderByte::Sign(Chomp::Keep),
        b'1'..=b'9' => HeaderByte::Digit(byte - 48),
        _ => HeaderByte::Neither,
    }
}

/// What a header says, or the place of its first wrong byte.
pub fn read_header(header: &[u8]) -> Result<Header, usize>
    ensures value { (at : ℕ) → header_told at header.now result ≡ header_from None None (cells at header.now) }
    ensures within { IfErr result (λ k. k < length header.now) }
{
    let mut chomp: Option<Chomp> = None;
    let mut digit: Option<u8> = None;
    for (i, byte) in header.iter().enumerate() {
        match mark_of(*byte) {
            HeaderByte::Sign(sign) => match chomp {
                None => chomp = Some(sign),
                Some(_) => return Err(i),
            },
            HeaderByte::Digit(value) => match digit {
                None => digit = Some(value),
                Some(_) => return Err(i),
            },
            HeaderByte::Neither => return ended(chomp, digit, header, i),
        }
    }
    Ok(header_of(chomp, digit))
}

/// What the marks of a header say where the bytes from a place on may stand behind them, or the first that may not.
fn ended(
    chomp: Option<Chomp>,
    digit: Option<u8>,
    header: &[u8],
    place: usize,
) -> Result<Header, usize>
    requires { place < length header.now }
    ensures value { (at : ℕ) → header_told at header.now result ≡ ends_header chomp digit (first_wrong false (cells (at + place) (drop place header.now))) }
    ensures within { IfErr result (λ k. k < length header.now) }
{
    match wrong_behind(past(header, place)) {
        Some(wrong) => Err(place + wrong),
        None => Ok(header_of(chomp, digit)),
    }
}

/// What marks say. Without `-` and `+` the last line break is kept.
fn header_of(chomp: Option<Chomp>, digit: Option<u8>) -> Header
    ensures { result ≡ header_with chomp digit }
{
    Header {
        chomp: chomp.unwrap_or(Chomp::Clip),
        digit,
    }
}
