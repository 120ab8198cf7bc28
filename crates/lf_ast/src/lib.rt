//! What a rule file says and what is found of it: expressions, rules, label sets, worlds, verdicts and findings.
#![tactic(auto)]

mod arguments;
mod calls;
mod expr;
mod functions;
mod label_order;
mod label_set;
mod laws;
mod modifiers;
mod operands;
mod parts;
mod rule;
mod selectors;
mod typing;
mod verdict;
pub mod walk;

pub use arguments::{has_dollar, text_at, text_of};
pub use expr::{Agg, Expr, ExprType, Group, Grouping, MatchOp, Matcher, Matching, Name, Op, Sight};
pub use functions::{Function, Further, LabelEffect};
pub use label_set::{LabelChoice, LabelSet};
pub use laws::{one_type, same_without_spans};
pub use operands::{is_comparison, is_scalar, is_set_operator, is_vector, joined, selected};
pub use parts::{span_of, string_of};
pub use rule::{Rule, RuleLabel, Template};
pub use selectors::{first_equal_name, selected_name};
pub use typing::type_of;
pub use verdict::{Finding, RuleVerdicts, Verdict, World};
