//! The texts that the keys of a rule file take.
ghost use Rattle.std.specs.Prelude.{◌≡◌};
ghost use Rattle.lf_rules.specs.reading.Files as reading;

use lf_base::names::are_digits;
use lf_lex::is_duration;

/// Whether a text is a length of time: a duration, or a single `0`.
#[tactic(auto, using(crate::proofs::Times::time_decides))]
pub fn is_time(text: &[u8]) -> bool
    ensures { result ≡ reading.is_time text.now }
{
    is_duration(text) || text == b"0".as_slice()
}

/// Whether a text is a limit: one to nine digits.
pub fn is_limit(text: &[u8]) -> bool
    ensures { result ≡ reading.is_limit text.now }
{
    are_digits(text) && 1 <= text.len() && text.len() <= 9
}
