//! The deepest expression that is read.

use lf_ast::Expr;
use lf_base::{Memory, Span, Text};
use std::alloc::Global;

/// Where the numbers stand.
pub const NUMBER: Span = Span { start: 7, end: 8 };

/// A number.
pub fn number(alloc: Global) -> Result<Expr, Memory> {
    let text = Text::of(alloc, "1")?;
    Ok(Expr::Number { text, span: NUMBER })
}

/// A number in a hundred pairs of parentheses, right inside each of which a hundred signs stand. No deeper expression is read.
pub fn deepest(alloc: Global) -> Result<Expr, Memory> {
    let mut expr = number(alloc)?;
    for k in 0..10_100 {
        let of = Box::new(alloc, expr)?;
        let minus = true;
        let span = NUMBER;
        expr = if k % 101 == 100 {
            Expr::Paren { of, span }
        } else {
            Expr::Unary { minus, of, span }
        };
    }
    Ok(expr)
}
