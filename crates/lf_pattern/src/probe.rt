//! Patterns that are tried on one value after another.
ghost use Rattle.std.specs.Prelude.{◌≡◌, ◌↔◌, IfOk, IsTrue};
ghost use Rattle.lf_pattern.specs.Matching.{Matches, matches};
ghost use Rattle.lf_pattern.specs.views.Form.{IsFormOf};

use crate::compiled::{finds, matcher};
use crate::pattern::{Form, contains};
use lf_base::{Memory, Seq, Text};
use regex::Matcher;
use std::alloc::Global;
use std::marker::Model;

/// How a pattern is tried.
#[derive(Drop)]
pub enum Way<'p> {
    /// A plain pattern, by its alternatives.
    Plain(&'p Seq<Text>),
    /// Any other, by `regex`.
    Other(Matcher<'p>),
}

/// A pattern that is tried on one value after another. What `regex` learns of the pattern at one value it keeps for the next. Contracts see the pattern's text.
#[derive(Drop)]
pub struct Probe<'p> {
    text: &'p Text,
    way: Way<'p>,
}

impl<'p> Model for Probe<'p> {
    ghost use Rattle.std.specs.Prelude.{List, ℕ};
    ghost use Rattle.lf_pattern.specs.views.Form.{IsWayOf};

    ghost Value = { List ℕ };

    ghost view = { λ p. p.text.now };

    ghost invariant = { λ p. IsWayOf p.text.now p.way };
}

impl<'p> Probe<'p> {
    /// Begins the tries of a pattern that has this text and is matched in this form.
    pub(crate) fn new(alloc: Global, text: &'p Text, form: &'p Form) -> Result<Probe<'p>, Memory>
        requires { IsFormOf text.now form.now }
        ensures { IfOk result (λ probe. probe ≡ text.now) }
    {
        match form {
            Form::Plain { alternatives, .. } => Ok(Probe {
                text,
                way: Way::Plain(alternatives),
            }),
            Form::Other(regex) => Ok(Probe {
                text,
                way: Way::Other(matcher(alloc, regex)?),
            }),
        }
    }

    /// Whether the pattern matches the value, as [`Pattern::matches`](crate::Pattern::matches) says it.
    pub fn matches(&mut self, text: &Text) -> bool
        ensures value { result ≡ matches self.old text.now }
        ensures meaning { IsTrue result ↔ Matches self.old text.now }
        ensures same { self.new ≡ self.old }
    {
        match &mut self.way {
            Way::Plain(alternatives) => contains(alternatives, text),
            Way::Other(matcher) => finds(matcher, text.as_str()),
        }
    }
}
