//! Whether a replacement is plain.
ghost use Rattle.std.specs.Prelude.{◌≡◌, ◌↔◌, IfOk, IsTrue};
ghost use Rattle.lf_pattern.specs.reading.Plainness.{checked, is_word, passes};
ghost use Rattle.lf_pattern.specs.Replacement.{IsPlainReplacement};

use lf_base::{Memory, Text};
use std::alloc::Global;

/// What was read of the piece that is open.
#[derive(Clone, Copy)]
enum Check {
    /// Nothing: no piece is open.
    Text,
    /// A `$`.
    Dollar,
    /// `$0`
    Zero,
    /// A `$` and digits that don't begin with 0.
    Number,
    /// A `${`.
    Brace,
    /// `${0`
    BracedZero,
    /// A `${` and digits that don't begin with 0.
    Braced,
    /// What no plain replacement has.
    Wrong,
}

/// Whether a replacement is plain: it holds `$` only as `$$`, `$n` and `${n}`, where n is a number without leading zeros, and `$n` isn't followed by an ASCII letter, a
/// digit, `_` or a character beyond ASCII.
pub fn is_plain_replacement(alloc: Global, replacement: &Text) -> Result<bool, Memory>
    ensures { IfOk result (λ plain. IsTrue plain ↔ IsPlainReplacement replacement.now) }
{
    let characters: Vec<char> = replacement.as_str().chars().collect(alloc)?;
    Ok(scan(&characters))
}

fn scan(characters: &[char]) -> bool
    ensures { result ≡ passes Check.Text characters.now }
{
    let mut check = Check::Text;
    for c in characters {
        check = step(check, *c);
    }
    matches!(check, Check::Text | Check::Zero | Check::Number)
}

/// Reads a character.
#[tactic(auto, unfolding(crate::specs::reading::Plainness::checked))]
fn step(check: Check, c: char) -> Check
    ensures { result ≡ checked check c }
{
    match check {
        Check::Text => text(c),
        Check::Dollar if c == '$' => Check::Text,
        Check::Dollar if c == '{' => Check::Brace,
        Check::Dollar if c == '0' => Check::Zero,
        Check::Dollar if c.is_ascii_digit() => Check::Number,
        Check::Number if c.is_ascii_digit() => Check::Number,
        Check::Zero | Check::Number if is_word(c) => Check::Wrong,
        Check::Zero | Check::Number => text(c),
        Check::Brace if c == '0' => Check::BracedZero,
        Check::Brace | Check::Braced if c.is_ascii_digit() => Check::Braced,
        Check::BracedZero | Check::Braced if c == '}' => Check::Text,
        _ => Check::Wrong,
    }
}

/// Reads a character that no piece is open before.
#[tactic(auto, unfolding(crate::specs::reading::Plainness::checked))]
fn text(c: char) -> Check
    ensures { result ≡ checked Check.Text c }
{
    if c == '$' { Check::Dollar } else { Check::Text }
}

/// Whether a group's name goes on with it: an ASCII letter or digit, `_`, or a character beyond ASCII.
fn is_word(c: char) -> bool
    ensures { result ≡ is_word c }
{
    c.is_ascii_alphanumeric() || c == '_' || !c.is_ascii()
}
