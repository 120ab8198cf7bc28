//! What is at hand to tell of rules.

use crate::Source;
use lf_ast::Rule;
use lf_base::Seq;
use lf_checks::Checker;
use lf_classes::Universe;
use lf_flow::Env;
use lf_report::Position;

/// The phase in which workers tell of rules, a piece being a rule.
pub const TELLING: u8 = 2;

/// What is at hand to tell of the rules of files. Workers share it.
#[derive(Drop)]
pub struct AtHand<'a> {
    pub files: &'a Seq<Source>,
    pub rules: &'a Seq<Rule>,
    /// Where the names of the rules stand.
    pub names: &'a [Position],
    pub universe: &'a Universe,
    pub env: &'a Env,
    pub checker: &'a Checker<'a>,
}
