//! What kind of operator one is.
ghost use Rattle.std.specs.Prelude.{◌≡◌};
ghost use Rattle.lf_semantics.specs.Grouped.{is_arithmetic, is_filter};

use lf_ast::{Matching, Op, is_comparison, is_set_operator};

/// Whether an operator is arithmetic, `atan2` included.
pub fn is_arithmetic(op: Op) -> bool
    ensures { result ≡ is_arithmetic op }
{
    !(is_comparison(op) || is_set_operator(op))
}

/// Whether an operator lets samples through as they are: a comparison without `bool`.
pub fn is_filter(op: Op, matching: &Matching) -> bool
    ensures { result ≡ is_filter op matching.now }
{
    is_comparison(op) && !matching.bool_mod
}
