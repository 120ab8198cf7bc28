//! The table of signs.
ghost use Rattle.std.specs.Prelude.{◌≡◌, ◌≤◌, ◌<◌, length, IfSome, Option, Some, None};
ghost use Rattle.lf_lex.specs.reading.Signs.{sign_of_two, sign_of_one, sign_at, one_byte};

use crate::token::Sign;

#[tactic(auto, unfolding(crate::specs::reading::Signs::sign_of_two))]
fn sign_of_two(byte: u8, next: u8) -> Option<Sign>
    ensures { result ≡ sign_of_two byte next }
{
    match (byte, next) {
        (b'=', b'=') => Some(Sign::Equal),
        (b'!', b'=') => Some(Sign::NotEqual),
        (b'<', b'=') => Some(Sign::LessOrEqual),
        (b'>', b'=') => Some(Sign::GreaterOrEqual),
        (b'=', b'~') => Some(Sign::Matches),
        (b'!', b'~') => Some(Sign::MatchesNot),
        _ => None,
    }
}

#[tactic(auto, unfolding(crate::specs::reading::Signs::sign_of_one))]
fn sign_of_one(byte: u8) -> Option<Sign>
    ensures { result ≡ sign_of_one byte }
{
    match byte {
        b'(' => Some(Sign::OpenParen),
        b')' => Some(Sign::CloseParen),
        b'{' => Some(Sign::OpenBrace),
        b'}' => Some(Sign::CloseBrace),
        b'[' => Some(Sign::OpenBracket),
        b']' => Some(Sign::CloseBracket),
        b',' => Some(Sign::Comma),
        b':' => Some(Sign::Colon),
        b'+' => Some(Sign::Plus),
        b'-' => Some(Sign::Minus),
        b'*' => Some(Sign::Times),
        b'/' => Some(Sign::Over),
        b'%' => Some(Sign::Modulo),
        b'^' => Some(Sign::Power),
        b'<' => Some(Sign::Less),
        b'>' => Some(Sign::Greater),
        b'=' => Some(Sign::Is),
        b'@' => Some(Sign::At),
        _ => None,
    }
}

fn one_byte(sign: Option<Sign>) -> Option<(Sign, usize)>
    ensures { result ≡ one_byte sign }
{
    match sign {
        None => None,
        Some(sign) => Some((sign, 1)),
    }
}

/// The sign at the front, the longer where there are two, and how many bytes it has.
#[tactic(auto, unfolding(crate::specs::reading::Signs::sign_at))]
pub fn sign_at(rest: &[u8]) -> Option<(Sign, usize)>
    ensures value { result ≡ sign_at rest.now }
    ensures within { IfSome result (λ sign. (0 < sign.1) × (sign.1 ≤ length rest.now)) }
{
    match rest {
        [] => None,
        [only] => one_byte(sign_of_one(*only)),
        [byte, next, ..] => match sign_of_two(*byte, *next) {
            Some(sign) => Some((sign, 2)),
            None => one_byte(sign_of_one(*byte)),
        },
    }
}
