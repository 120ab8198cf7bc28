//! Which metric a selector names.
ghost use Rattle.std.specs.Prelude.{◌≡◌};
ghost use Rattle.std.specs.Option.{option_copied};
ghost use Rattle.lf_ast.specs.Selectors.{first_equal_name, selected_name};

use crate::{MatchOp, Matcher};
use lf_base::Text;

/// The name that a selector says: the one before the braces, or that of the first `=` on the metric name.
pub fn selected_name<'a>(name: &'a Option<Text>, matchers: &'a [Matcher]) -> Option<&'a Text>
    ensures { option_copied result ≡ selected_name name.now matchers.now }
{
    match name {
        Some(name) => Some(name),
        None => first_equal_name(matchers),
    }
}

/// The text of the first `=` on the metric name.
pub fn first_equal_name(matchers: &[Matcher]) -> Option<&Text>
    ensures { option_copied result ≡ first_equal_name matchers.now }
{
    for matcher in matchers {
        if matcher.op == MatchOp::Equal && matcher.label.as_str() == "__name__" {
            return Some(&matcher.value);
        }
    }
    None
}
