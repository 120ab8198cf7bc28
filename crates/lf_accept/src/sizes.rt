//! Patterns that are too large to be read.
ghost use Rattle.std.specs.Prelude.{◌≡◌, ◌+◌, ◌<◌, ◌^◌, ◌==◌, ◌&&◌, not, cond, IfOk};
ghost use Rattle.std.specs.List.{list_any};
ghost use Rattle.lf_accept.specs.Patterns.{texts_at};
ghost use Rattle.lf_accept.specs.Sizes as sizes;

use lf_base::bytes::after;
use lf_base::{Memory, Text};
use lf_pattern::plain_alternatives;
use std::alloc::Global;

/// The longest pattern that isn't plain, in bytes.
const LONGEST: usize = 524_288;

/// The most classes of Unicode's characters in a pattern, as `\w` and `\pL`. Reading each takes up to 8 KiB, before it is asked how much the pattern takes.
const MOST_CLASSES: usize = 4_096;

/// The most groups with a name or flags in a pattern. Each name is compared with those before it.
const MOST_MARKED_GROUPS: usize = 1_024;

/// Whether one of these patterns is too large to be read.
pub fn is_some_too_large(alloc: Global, patterns: &[&str]) -> Result<bool, Memory>
    ensures { IfOk result (λ found. found ≡ list_any sizes.is_too_large (texts_at patterns.now)) }
{
    for pattern in patterns {
        if is_too_large(alloc, pattern)? {
            return Ok(true);
        }
    }
    Ok(false)
}

/// Whether a pattern is too large to be read.
fn is_too_large(alloc: Global, pattern: &str) -> Result<bool, Memory>
    ensures { IfOk result (λ large. large ≡ sizes.is_too_large pattern.now) }
{
    let bytes = pattern.as_bytes();
    if class_count(bytes) > MOST_CLASSES || marked_count(bytes) > MOST_MARKED_GROUPS {
        return Ok(true);
    }
    if bytes.len() <= LONGEST {
        return Ok(false);
    }
    let text = Text::of(alloc, pattern)?;
    let alternatives = plain_alternatives(alloc, &text)?;
    Ok(alternatives.is_none())
}

/// How many classes of Unicode's characters a pattern names behind a backslash.
#[tactic(auto, using(crate::proofs::Counts::class_at))]
fn class_count(pattern: &[u8]) -> usize
    ensures { result ≡ sizes.class_count pattern.now }
{
    let mut count: usize = 0;
    let mut slash = false;
    for byte in pattern {
        count = one_more_if(is_class(slash, *byte), count);
        slash = is_slash(slash, *byte);
    }
    count
}

/// Whether a byte names a class. `slash` says that it belongs to the backslash before it.
#[tactic(auto, unfolding(crate::specs::Sizes::names_class))]
fn is_class(slash: bool, byte: u8) -> bool
    ensures { result ≡ (slash && sizes.names_class byte) }
{
    slash && matches!(byte, b'd' | b'D' | b'p' | b'P' | b's' | b'S' | b'w' | b'W')
}

/// Whether the next byte belongs to this one, which is a backslash.
fn is_slash(slash: bool, byte: u8) -> bool
    ensures { result ≡ (not slash && byte == 92) }
{
    !slash && byte == b'\\'
}

/// How many groups of a pattern have a name or flags.
#[tactic(auto, using(crate::proofs::Counts::marked_at))]
fn marked_count(pattern: &[u8]) -> usize
    ensures { result ≡ sizes.marked_count pattern.now }
{
    let mut count: usize = 0;
    for place in 0..pattern.len() {
        count = one_more_if(begins_marked(after(pattern, place)), count);
    }
    count
}

/// Whether a group with a name or flags begins here.
fn begins_marked(rest: &[u8]) -> bool
    ensures { result ≡ sizes.begins_marked rest.now }
{
    match rest {
        [] => false,
        [_only] => false,
        [_first, _second] => false,
        [open, mark, next, ..] => *open == b'(' && *mark == b'?' && *next != b':',
    }
}

/// A count, with one more where there is one.
fn one_more_if(more: bool, count: usize) -> usize
    requires { count + 1 < 2 ^ 64 }
    ensures { result ≡ cond more 1 0 + count }
{
    if more { count + 1 } else { count }
}
