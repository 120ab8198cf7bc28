//! The operators: which tokens they are, and how they bind.
ghost use Rattle.std.specs.Prelude.{◌≡◌};
ghost use Rattle.lf_parse.specs.Tokens as tokens;
ghost use Rattle.lf_parse.specs.Grammar as grammar;
ghost use Rattle.lf_parse.specs.views.Values.{mark_of};
ghost use Rattle.std.specs.Prelude.{List, ℕ};

use crate::class::WordClass;
use crate::mark::Mark;
use lf_ast::Op;
use lf_lex::Sign;

/// The level of the unary signs, which is that of the power.
pub const UNARY: u32 = 6;

/// The binary operator that a sign is.
pub fn op_of_sign(sign: Sign) -> Option<Op>
    ensures { result ≡ tokens.op_of_sign sign }
{
    match sign {
        Sign::Plus => Some(Op::Add),
        Sign::Minus => Some(Op::Subtract),
        Sign::Times => Some(Op::Multiply),
        Sign::Over => Some(Op::Divide),
        Sign::Modulo => Some(Op::Modulo),
        Sign::Power => Some(Op::Power),
        Sign::Equal => Some(Op::Equal),
        Sign::NotEqual => Some(Op::NotEqual),
        Sign::LessOrEqual => Some(Op::LessOrEqual),
        Sign::Less => Some(Op::Less),
        Sign::GreaterOrEqual => Some(Op::GreaterOrEqual),
        Sign::Greater => Some(Op::Greater),
        _ => None,
    }
}

/// The binary operator that a token is.
pub fn op_of(mark: Mark) -> Option<Op>
    ensures { (text : List ℕ) → result ≡ tokens.op_of (mark_of mark text) }
{
    match mark {
        Mark::Sign(sign) => op_of_sign(sign),
        Mark::Word(WordClass::Operator(op)) => Some(op),
        _ => None,
    }
}

/// How tight an operator binds: the level of the expressions that it makes.
pub fn level(op: Op) -> u32
    ensures { result ≡ grammar.level op }
{
    match op {
        Op::Or => 1,
        Op::And | Op::Unless => 2,
        Op::Equal | Op::NotEqual | Op::LessOrEqual | Op::Less | Op::GreaterOrEqual | Op::Greater =>
            3,
        Op::Add | Op::Subtract => 4,
        Op::Multiply | Op::Divide | Op::Modulo | Op::Atan2 => 5,
        Op::Power => UNARY,
    }
}

/// The level of an operator's left operand: its own, so that operators group to the left, but for the power.
pub fn left_level(op: Op) -> u32
    ensures { result ≡ grammar.left_level op }
{
    match op {
        Op::Power => 7,
        _ => level(op),
    }
}
