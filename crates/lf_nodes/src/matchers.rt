//! What stands behind the operator of a matcher.
ghost use Rattle.std.specs.Prelude.{◌≡◌};
ghost use Rattle.lf_semantics.specs.PatternBreaches.{takes_pattern};

use lf_ast::MatchOp;

/// Whether what stands behind an operator is a pattern: behind `=~` and `!~`.
pub fn takes_pattern(op: MatchOp) -> bool
    ensures { result ≡ takes_pattern op }
{
    match op {
        MatchOp::Equal | MatchOp::NotEqual => false,
        MatchOp::Matches | MatchOp::NotMatches => true,
    }
}
