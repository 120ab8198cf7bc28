//! Laws of expressions, for readers and for the crates above. The functions do nothing; what they ensure is the law.
ghost use Rattle.std.specs.Prelude.{◌≡◌, ℕ, List};
ghost use Rattle.lf_base.specs.Answers.{OneAnswer};
ghost use Rattle.lf_lex.specs.declared.token.Token.{Token};
ghost use Rattle.lf_ast.specs.Tree.{Tree};
ghost use Rattle.lf_parse.specs.Grammar.{Parses};
ghost use Rattle.lf_parse.specs.Answer.{IsExpression, Refuses};

/// Tokens have one tree, or one refusal: no less, no more and not both. Where the bounds are passed there is one tree at most.
pub fn one_reading()
    ensures answer { (tokens : List Token) (end : ℕ) → OneAnswer (IsExpression tokens) (Refuses tokens end) }
    ensures tree { (tokens : List Token) (expr other : Tree) → Parses tokens expr → Parses tokens other → expr ≡ other }
{}
