//! Whether a matcher passes a text.
ghost use Rattle.std.specs.Prelude.{◌≡◌, ◌&&◌, true, false, IfOk, not};
ghost use Rattle.lf_pattern.specs.Matching.{is_read, matches};
ghost use Rattle.lf_semantics.specs.Passing.{passes};

use lf_ast::{MatchOp, Matcher};
use lf_base::{Memory, Text};
use lf_pattern::{Pattern, PatternError};
use std::alloc::Global;

/// Whether a matcher passes a value; of a label that is absent, the empty text. `=~` and `!~` ask whether the pattern matches the whole value. What is no pattern
/// passes nothing.
pub fn passes(alloc: Global, matcher: &Matcher, text: &Text) -> Result<bool, Memory>
    ensures { IfOk result (λ found. found ≡ passes matcher.now.op matcher.now.value text.now) }
{
    match matcher.op {
        MatchOp::Equal => Ok(text.as_str() == matcher.value.as_str()),
        MatchOp::NotEqual => Ok(text.as_str() != matcher.value.as_str()),
        MatchOp::Matches => found(alloc, &matcher.value, text, true),
        MatchOp::NotMatches => found(alloc, &matcher.value, text, false),
    }
}

/// Whether a text is a pattern, and matches the value or doesn't, as is wanted.
fn found(alloc: Global, pattern: &Text, value: &Text, wanted: bool) -> Result<bool, Memory>
    ensures yes { wanted ≡ true → IfOk result (λ found. found ≡ matches pattern.now value.now) }
    ensures no { wanted ≡ false → IfOk result (λ found. found ≡ (is_read pattern.now && not (matches pattern.now value.now))) }
{
    match Pattern::new(alloc, pattern) {
        Ok(mut pattern) => Ok(pattern.matches(alloc, value)? == wanted),
        Err(PatternError::BadPattern) => Ok(false),
        Err(PatternError::Memory) => Err(Memory),
    }
}
