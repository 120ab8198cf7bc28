//! The calls that cases are run over. A further one has a variant, a word, a line in each `match` here, and a file of its own.

use crate::answer::Answer;
use crate::case::TestCase;
use crate::{expressions, patterns, rules, scalars, templates, tokens, trees, types};
use anyhow::Result;
use std::alloc::Global;
use std::time::Duration;

/// A call of a library.
#[derive(Clone, Copy, PartialEq, Eq, Debug)]
pub enum Call {
    /// `lf_lex::lex`
    Tokens,
    /// `lf_parse::parse`
    Expressions,
    /// `lf_ast::type_of`, of what `lf_parse::parse` reads
    Types,
    /// `lf_scalar::read_scalar`
    Scalars,
    /// `lf_yaml::read_tree`
    Trees,
    /// `lf_rules::read_rules`, of what `lf_yaml::read_tree` reads
    Rules,
    /// The calls of `lf_pattern`
    Patterns,
    /// `lf_templates::references`
    Templates,
}

impl Call {
    /// The call that a word names.
    pub fn of(word: &str) -> Option<Call> {
        match word {
            "tokens" => Some(Call::Tokens),
            "expressions" => Some(Call::Expressions),
            "types" => Some(Call::Types),
            "scalars" => Some(Call::Scalars),
            "trees" => Some(Call::Trees),
            "rules" => Some(Call::Rules),
            "patterns" => Some(Call::Patterns),
            "templates" => Some(Call::Templates),
            _ => None,
        }
    }

    /// The word that names the call.
    pub fn word(self) -> &'static str {
        match self {
            Call::Tokens => "tokens",
            Call::Expressions => "expressions",
            Call::Types => "types",
            Call::Scalars => "scalars",
            Call::Trees => "trees",
            Call::Rules => "rules",
            Call::Patterns => "patterns",
            Call::Templates => "templates",
        }
    }

    /// Writes what the call answers on a case.
    pub fn answer(self, alloc: Global, case: &TestCase, answer: &mut Answer) -> Result<()> {
        match self {
            Call::Tokens => tokens::answer(alloc, case, &mut answer.expect),
            Call::Expressions => expressions::answer(alloc, case, answer),
            Call::Types => types::answer(alloc, case, &mut answer.expect),
            Call::Scalars => scalars::answer(alloc, case, &mut answer.expect),
            Call::Trees => trees::answer(alloc, case, &mut answer.expect),
            Call::Rules => rules::answer(alloc, case, &mut answer.expect),
            Call::Patterns => patterns::answer(alloc, case, &mut answer.expect),
            Call::Templates => templates::answer(alloc, case, &mut answer.expect),
        }
    }

    /// The processor time of one call on a text.
    pub fn time(self, rt: &HostRuntime, text: &str) -> Result<Duration> {
        match self {
            Call::Tokens => tokens::time(rt, text),
            Call::Expressions => expressions::time(rt, text),
            Call::Types => types::time(rt, text),
            Call::Scalars => scalars::time(rt, text),
            Call::Trees => trees::time(rt, text),
            Call::Rules => rules::time(rt, text),
            Call::Patterns => patterns::time(rt, text),
            Call::Templates => templates::time(rt, text),
        }
    }
}
