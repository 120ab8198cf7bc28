//! Plain patterns.
ghost use Rattle.std.specs.Prelude.{◌≡◌, ℕ, List, [], IfOk, IfSome, Some, false};
ghost use Rattle.std.specs.Str.{chars};
ghost use Rattle.lf_pattern.specs.Plain.{is_special, is_escapable, HasAlternatives};
ghost use Rattle.lf_pattern.specs.Scan.{inside, scanned, alternatives_of};
ghost use Rattle.lf_pattern.specs.reading.Expansion.{captures, is_capture};

use lf_base::{Memory, Seq, Text};
use std::alloc::Global;

/// Whether it is one of `\.+*?()[]{}^$|`.
#[tactic(auto, unfolding(crate::specs::Plain::is_special))]
pub fn is_special(c: char) -> bool
    ensures { result ≡ is_special c }
{
    matches!(
        c,
        '\\' | '.' | '+' | '*' | '?' | '(' | ')' | '[' | ']' | '{' | '}' | '^' | '$' | '|'
    )
}

/// Whether it is ASCII punctuation other than `<` and `>`.
#[tactic(auto, unfolding(crate::specs::Plain::is_escapable))]
pub fn is_escapable(c: char) -> bool
    ensures { result ≡ is_escapable c }
{
    c.is_ascii_punctuation() && c != '<' && c != '>'
}

/// What stands in the pair of parentheses, if there is one round the whole.
fn inside(characters: &[char]) -> &[char]
    ensures { result.now ≡ inside characters.now }
{
    let n = characters.len();
    if n > 1 && characters[0] == '(' && characters[n - 1] == ')' {
        if n > 3 && characters[1] == '?' && characters[2] == ':' {
            return &characters[3..n - 1];
        }
        return &characters[1..n - 1];
    }
    characters
}

/// The values of literals joined by `|`.
fn scan(alloc: Global, characters: &[char]) -> Result<Option<Seq<Text>>, Memory>
    ensures { IfOk result (λ r. r ≡ scanned [] [] false characters.now) }
{
    let mut done = Seq::new(alloc);
    let mut now = String::new(alloc);
    let mut escaped = false;
    for c in characters {
        if escaped {
            if !is_escapable(*c) {
                return Ok(None);
            }
            now.push(*c)?;
            escaped = false;
        } else if *c == '\\' {
            escaped = true;
        } else if *c == '|' {
            done.push(Text::of(alloc, now.as_str())?)?;
            now = String::new(alloc);
        } else if is_special(*c) {
            return Ok(None);
        } else {
            now.push(*c)?;
        }
    }
    if escaped {
        return Ok(None);
    }
    done.push(Text::of(alloc, now.as_str())?)?;
    Ok(Some(done))
}

/// The alternatives of a plain pattern, in their order: literals joined by `|`, perhaps in one pair `( )` or `(?: )`. None where the pattern isn't plain.
pub fn plain_alternatives(alloc: Global, text: &Text) -> Result<Option<Seq<Text>>, Memory>
    ensures value { IfOk result (λ r. r ≡ alternatives_of text.now) }
    // What is given is the list of the pattern's alternatives.
    ensures plain { IfOk result (λ r. IfSome r (HasAlternatives text.now)) }
    // The alternatives of a plain pattern are given, unless memory runs out.
    ensures only { (alternatives : List (List ℕ)) → HasAlternatives text.now alternatives → IfOk result (λ r. r ≡ Some alternatives) }
{
    let characters: Vec<char> = text.as_str().chars().collect(alloc)?;
    scan(alloc, inside(&characters))
}

/// Whether a plain pattern stands in a pair `( )`, which is a group.
pub fn in_pair(alloc: Global, text: &Text) -> Result<bool, Memory>
    ensures { IfOk result (λ r. r ≡ captures text.now) }
{
    let characters: Vec<char> = text.as_str().chars().collect(alloc)?;
    Ok(is_pair(&characters))
}

/// Whether the characters stand in a pair `( )` that doesn't begin with `(?:`.
fn is_pair(characters: &[char]) -> bool
    ensures { result ≡ is_capture characters.now }
{
    let n = characters.len();
    let pair = n > 1 && characters[0] == '(' && characters[n - 1] == ')';
    let quiet = n > 3 && characters[1] == '?' && characters[2] == ':';
    pair && !quiet
}
