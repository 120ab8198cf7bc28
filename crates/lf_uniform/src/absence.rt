//! The text that an `absent` gives a label.
ghost use Rattle.std.specs.Prelude.{◌≡◌, [], cond};
ghost use Rattle.std.specs.List.{filter};
ghost use Rattle.std.specs.Option.{option_map_or};
ghost use Rattle.std.specs.Str.{bytes_eq};
ghost use Rattle.lf_ast.specs.Tree.{trees};
ghost use Rattle.lf_semantics.specs.Grouped.{is_metric};
ghost use Rattle.lf_semantics.specs.Parts.{sought_in};
ghost use Rattle.lf_semantics.specs.Strings.{equal_texts};
ghost use Rattle.lf_trials.specs.Candidates.{first};
ghost use Rattle.lf_trials.specs.Follow.{sought_text};
ghost use Rattle.lf_uniform.specs.views.Following.{first_equal};

use lf_ast::{Expr, MatchOp, Matcher};
use lf_nodes::{is_metric, sought_in};

/// The text of the first `=` on a label, where the argument is a selector, also in parentheses; else none. The metric name has none.
pub fn sought_text<'a>(args: &'a [Expr], label: &str) -> &'a str
    ensures { result.now ≡ sought_text label.now (sought_in (trees args.now)) }
{
    match sought_in(args) {
        Some(sought) => equal_text(sought.matchers, label),
        None => "",
    }
}

/// The text of the first `=` on a label that isn't the metric name, and else none.
fn equal_text<'a>(matchers: &'a [Matcher], label: &str) -> &'a str
    ensures { result.now ≡ cond (is_metric label.now) [] (option_map_or (λ text. text) (first (equal_texts (filter (λ m. bytes_eq m.label label.now) matchers.now))) []) }
{
    if is_metric(label) {
        ""
    } else {
        first_equal(matchers, label)
    }
}

/// The text of the first `=` on a label, and else none.
pub fn first_equal<'a>(matchers: &'a [Matcher], label: &str) -> &'a str
    ensures { result.now ≡ first_equal label.now matchers.now }
{
    for matcher in matchers {
        if matcher.op == MatchOp::Equal && matcher.label.as_str() == label {
            return matcher.value.as_str();
        }
    }
    ""
}
