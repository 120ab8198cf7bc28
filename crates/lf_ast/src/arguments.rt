//! What is read off the arguments of a call.
ghost use Rattle.std.specs.Prelude.{◌≡◌};
ghost use Rattle.lf_ast.specs.Arguments.{has_dollar, text_at, text_of, texts_of};
ghost use Rattle.lf_ast.specs.Tree.{tree, trees};

use crate::Expr;
use crate::parts::string_of;

/// The text of a string, which may stand in parentheses, and the empty text of any other expression.
pub fn text_of(expr: &Expr) -> &str
    ensures { result.now ≡ text_of (tree expr.now) }
{
    match string_of(expr) {
        Some(text) => text.as_str(),
        None => "",
    }
}

/// The text of the argument at a place, counted from 0, and the empty text where there is none.
pub fn text_at(args: &[Expr], place: usize) -> &str
    ensures { result.now ≡ text_at (texts_of (trees args.now)) place }
{
    match args.get(place) {
        Some(expr) => text_of(expr),
        None => "",
    }
}

/// Whether a replacement has a `$`, so that it may name groups of a pattern.
pub fn has_dollar(replacement: &str) -> bool
    ensures { result ≡ has_dollar replacement.now }
{
    replacement.as_bytes().iter().any(|b| *b == b'$')
}
