//! Rows of digits and letters: numbers, durations, and what is neither.
ghost use Rattle.std.specs.Prelude.{◌≡◌, ◌≤◌, ◌<◌, length, Option, Some, None, IfSome, true, count_by, ◌&&◌, nat_le};
ghost use Rattle.std.specs.List.{list_all, list_any};
ghost use Rattle.lf_base.specs.Names as names;
ghost use Rattle.lf_lex.specs.Bytes as bytes;
ghost use Rattle.lf_lex.specs.Runs.{begins_run};
ghost use Rattle.lf_lex.specs.reading.Runs as runs;

use crate::bytes::{is_dot, is_exponent, is_plus_minus};
use crate::class::{ByteClass, prefix_len};
use lf_base::bytes::{after, before};
use lf_base::names::{are_digits, is_digit, is_hexadecimal};

/// Whether a run begins here: a digit, or a dot before a digit.
pub fn begins_run(rest: &[u8]) -> bool
    ensures { result ≡ begins_run rest.now }
{
    match rest {
        [] => false,
        [byte] => is_digit(*byte),
        [byte, next, ..] => is_digit(*byte) || (is_dot(*byte) && is_digit(*next)),
    }
}

/// Whether an exponent's letter and its sign stand here.
fn begins_signed(rest: &[u8]) -> bool
    ensures value { result ≡ runs.begins_signed rest.now }
    ensures room { result ≡ true → 2 ≤ length rest.now }
{
    match rest {
        [] => false,
        [_only] => false,
        [letter, sign, ..] => is_exponent(*letter) && is_plus_minus(*sign),
    }
}

/// How many bytes the run at the front has.
#[tactic(auto, unfolding(crate::specs::reading::Runs::run_len))]
pub fn run_len(rest: &[u8]) -> usize
    ensures value { result ≡ runs.run_len rest.now }
    ensures within { result ≤ length rest.now }
{
    let front = prefix_len(rest, ByteClass::Mantissa);
    if begins_signed(after(rest, front)) {
        front + 2 + prefix_len(after(rest, front + 2), ByteClass::Run)
    } else {
        prefix_len(rest, ByteClass::Run)
    }
}

/// Whether there is a byte, and each is a hexadecimal digit.
fn are_some_hexadecimal(digits: &[u8]) -> bool
    ensures { result ≡ bytes.are_some names.is_hexadecimal digits.now }
{
    match digits {
        [] => false,
        [first, more @ ..] => is_hexadecimal(*first) && are_hexadecimal(more),
    }
}

/// Whether each byte is a hexadecimal digit.
fn are_hexadecimal(digits: &[u8]) -> bool
    ensures { result ≡ list_all names.is_hexadecimal digits.now }
{
    digits.iter().all(|byte| is_hexadecimal(*byte))
}

/// Whether there is a byte, and each is a digit.
fn are_some_digits(digits: &[u8]) -> bool
    ensures { result ≡ bytes.are_some names.is_digit digits.now }
{
    match digits {
        [] => false,
        [first, more @ ..] => is_digit(*first) && are_digits(more),
    }
}

#[tactic(auto, unfolding(crate::specs::reading::Runs::is_hexadecimal_number))]
fn is_hexadecimal_number(run: &[u8]) -> bool
    ensures { result ≡ runs.is_hexadecimal_number run.now }
{
    match run {
        [] => false,
        [_only] => false,
        [zero, x, digits @ ..] => *zero == b'0'
            && (*x == b'x' || *x == b'X')
            && are_some_hexadecimal(digits),
    }
}

#[tactic(auto, unfolding(crate::specs::reading::Runs::is_mantissa))]
fn is_mantissa(front: &[u8]) -> bool
    ensures { result ≡ runs.is_mantissa front.now }
{
    has_digit(front) && dots(front) <= 1
}

fn has_digit(front: &[u8]) -> bool
    ensures { result ≡ list_any names.is_digit front.now }
{
    front.iter().any(|byte| is_digit(*byte))
}

fn dots(front: &[u8]) -> usize
    ensures { result ≡ count_by bytes.is_dot front.now }
{
    front.iter().filter(|byte| is_dot(**byte)).count()
}

/// Whether digits stand here, perhaps behind a sign.
fn are_signed(rest: &[u8]) -> bool
    ensures { result ≡ runs.are_signed rest.now }
{
    match rest {
        [] => false,
        [sign, digits @ ..] => {
            if is_plus_minus(*sign) {
                are_some_digits(digits)
            } else {
                are_some_digits(rest)
            }
        }
    }
}

#[tactic(auto, unfolding(crate::specs::reading::Runs::is_exponent_part))]
fn is_exponent_part(rest: &[u8]) -> bool
    ensures { result ≡ runs.is_exponent_part rest.now }
{
    match rest {
        [] => true,
        [letter, more @ ..] => is_exponent(*letter) && are_signed(more),
    }
}

#[tactic(auto, unfolding(crate::specs::reading::Runs::is_decimal_number))]
fn is_decimal_number(run: &[u8]) -> bool
    ensures { result ≡ runs.is_decimal_number run.now }
{
    let front = prefix_len(run, ByteClass::Mantissa);
    is_mantissa(before(run, front)) && is_exponent_part(after(run, front))
}

/// Whether a run is a number.
#[tactic(auto, unfolding(crate::specs::reading::Runs::is_number))]
pub fn is_number(run: &[u8]) -> bool
    ensures { result ≡ runs.is_number run.now }
{
    is_hexadecimal_number(run) || is_decimal_number(run)
}

#[tactic(auto, unfolding(crate::specs::reading::Runs::place_of_letter))]
fn place_of_letter(byte: u8) -> Option<u8>
    ensures value { result ≡ runs.place_of_letter byte }
    ensures small { IfSome result (λ place. place < 7) }
{
    match byte {
        b'y' => Some(0),
        b'w' => Some(1),
        b'd' => Some(2),
        b'h' => Some(3),
        b'm' => Some(4),
        b's' => Some(5),
        _ => None,
    }
}

fn one_letter(place: Option<u8>) -> Option<(u8, usize)>
    requires { IfSome place (λ p. p < 7) }
    ensures value { result ≡ runs.one_letter place }
    ensures small { IfSome result (λ unit. (unit.0 < 7) × (unit.1 ≡ 1)) }
{
    match place {
        None => None,
        Some(place) => Some((place, 1)),
    }
}

/// The unit at the front: its place in the order `y w d h m s ms`, and how many letters it has.
#[tactic(auto, unfolding(crate::specs::reading::Runs::unit_at))]
fn unit_at(rest: &[u8]) -> Option<(u8, usize)>
    ensures value { result ≡ runs.unit_at rest.now }
    ensures small { IfSome result (λ unit. unit.0 < 7) }
    ensures within { IfSome result (λ unit. (0 < unit.1) × (unit.1 ≤ length rest.now)) }
{
    match rest {
        [] => None,
        [only] => one_letter(place_of_letter(*only)),
        [byte, next, ..] => {
            if *byte == b'm' && *next == b's' {
                Some((6, 2))
            } else {
                one_letter(place_of_letter(*byte))
            }
        }
    }
}

/// Whether the units stand in order still behind the next one.
fn keeps_order(ordered: bool, least: u8, place: u8) -> bool
    ensures { result ≡ (ordered && nat_le least place) }
{
    ordered && least <= place
}

/// For a run of parts, each digits and a unit: whether the units stand in their order, each at most once. None for another run.
pub fn duration_order(run: &[u8]) -> Option<bool>
    ensures { result ≡ runs.duration_order run.now }
{
    let mut ordered = true;
    let mut least = 0;
    let mut rest = run;
    while !rest.is_empty() {
        let digits = prefix_len(rest, ByteClass::Digit);
        if digits == 0 {
            return None;
        }
        let behind = after(rest, digits);
        let Some((place, len)) = unit_at(behind) else {
            return None;
        };
        ordered = keeps_order(ordered, least, place);
        least = place + 1;
        rest = after(behind, len);
    }
    Some(ordered)
}
