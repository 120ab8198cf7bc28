//! From tokens to trees.
ghost use Rattle.std.specs.Prelude.{◌≡◌, ◌≤◌, ℕ, IfOk};
ghost use Rattle.std.specs.List.Sorted.{IsNonDecreasingBy};
ghost use Rattle.lf_base.specs.declared.kind.Kind.TheVariants.{Syntax};
ghost use Rattle.lf_base.specs.declared.refusal.Refusal.TheVariants.{At};
ghost use Rattle.lf_base.specs.Answers.{Breach, Found, AnswersAs, Only, Refused, RefusedIn};
ghost use Rattle.lf_ast.specs.Inside.{Inside};
ghost use Rattle.lf_ast.specs.Tree.{tree};
ghost use Rattle.lf_lex.specs.Tokens.{LieIn};
ghost use Rattle.lf_parse.specs.Answer.{IsExpression, Refuses};
ghost use Rattle.lf_parse.specs.reading.Answers.{answer};

use crate::machine::{advance, finish};
use crate::mark::marked;
use crate::mode::ParserMode;
use crate::nesting::first_too_deep;
use lf_ast::Expr;
use lf_base::{Kind, Refusal, Seq, Span};
use lf_lex::Token;
use std::alloc::Global;

/// The expression that the tokens of a text are. `end` is the offset in the source of the text's end.
///
/// `TooDeep` is refused at the first token behind which more than 100 parentheses are open, or more than 100 operators and signs `[` stand directly inside one
/// pair of them or outside all; this is judged first, over all tokens. `Syntax` is refused at the first token with which no expression goes on, and with an
/// empty span at the text's end where more would have to come.
pub fn parse(alloc: Global, tokens: &Seq<Token>, end: u32) -> Result<Expr, Refusal>
    // What is answered is an expression within the bounds, and the tree that the grammar gives for the tokens.
    ensures found { Found tree (IsExpression tokens.now) result }
    // It is answered, unless memory runs out; so no tokens have two trees.
    ensures only { Only tree (IsExpression tokens.now) result }
    // What is refused is the first token that passes a bound, or else the first with which no expression goes on.
    ensures refused { Refused (Refuses tokens.now end) result }
    // It is refused, unless memory runs out.
    ensures breach { Breach tree (Refuses tokens.now end) result }
    // Where the tokens lie in a source, in its order, so does each span of the expression.
    ensures inside { (n : ℕ) → LieIn n tokens.now → IsNonDecreasingBy (λ token. token.span.start) tokens.now → IfOk result (λ expr. Inside n (tree expr)) }
    // So does what is refused, where the text's end does too.
    ensures refused_inside { (n : ℕ) → LieIn n tokens.now → end ≤ n → RefusedIn n result }
{
    let tokens = tokens.as_slice();
    if let Some(k) = first_too_deep(alloc, tokens)? {
        return Err(Refusal::At {
            kind: Kind::TooDeep,
            span: tokens[k].span,
        });
    }
    read(alloc, tokens, end)
}

/// The same, where no bound is passed.
fn read(alloc: Global, tokens: &[Token], end: u32) -> Result<Expr, Refusal>
    ensures { AnswersAs tree result (answer tokens.now end) }
{
    let mut stack = Vec::new(alloc);
    let mut mode = ParserMode::ExpectOperand;
    for token in tokens {
        match advance(alloc, &mut stack, mode, marked(token))? {
            Some(next) => mode = next,
            None => return Err(syntax(token.span)),
        }
    }
    match finish(alloc, stack, mode)? {
        Some(expr) => Ok(expr),
        None => Err(syntax(Span { start: end, end })),
    }
}

/// The refusal of a token, or of the end, with which no expression goes on.
fn syntax(span: Span) -> Refusal
    ensures { result ≡ At Syntax span }
{
    Refusal::At {
        kind: Kind::Syntax,
        span,
    }
}
