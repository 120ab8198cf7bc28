//! What is told of an expression where a label is followed.
ghost use Rattle.std.specs.Prelude.{◌≡◌, ◌≤◌, [], length, Some};
ghost use Rattle.lf_trials.specs.Follow.{lost};
ghost use Rattle.lf_uniform.specs.views.Following.{operand_of};

use lf_ast::ExprType;
use lf_base::Text;
use lf_nodes::the_only;
use std::alloc::Global;

/// The text that a label has on what an expression gives, or that it can't be followed, and the type that the expression's form tells.
#[derive(Drop)]
pub struct FollowedText {
    pub text: Option<Text>,
    pub form: ExprType,
}

/// The empty text: the label is absent.
pub fn empty(alloc: Global) -> Text
    ensures { result ≡ [] }
{
    Text::from_string(String::new(alloc))
}

/// A label that is lost.
pub fn lost(alloc: Global) -> Option<Text>
    ensures { result ≡ lost }
{
    Some(empty(alloc))
}

/// The text on the only one of these, and none where there is none.
pub fn operand(parts: Vec<FollowedText>) -> Option<Text>
    requires { length parts.items ≤ 1 }
    ensures { result ≡ operand_of parts.items }
{
    if parts.is_empty() {
        None
    } else {
        the_only(parts).text
    }
}
