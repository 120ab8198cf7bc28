//! What rules and their expressions mention, in the order of their text.
ghost use Rattle.std.specs.Prelude.{◌≡◌, ◌++◌, [], cond, OnOk};
ghost use Rattle.std.specs.Option.{option_map};
ghost use Rattle.lf_ast.specs.Arguments.{texts_of};
ghost use Rattle.lf_ast.specs.Functions.{signature_of};
ghost use Rattle.lf_ast.specs.Rules.{rule_tree, rule_trees};
ghost use Rattle.lf_ast.specs.Tree.{trees};
ghost use Rattle.lf_semantics.specs.Mentions.{group_names, matchers_mentions, name_mentions, names_mentions, rule_mentions, rules_mentions, stands_first};
ghost use Rattle.lf_classes.specs.views.Mentioned.{called_before, called_behind, mentioned_all};

use crate::mentions::{METRIC, Mentions};
use lf_ast::walk::{Parts, Visitor, visit};
use lf_ast::{Expr, Function, Grouping, Matcher, Name, Rule, span_of};
use lf_base::{Memory, Text};
use std::alloc::Global;

impl Mentions {
    /// Mentions what rules name.
    pub fn mention_rules(&mut self, alloc: Global, rules: &[Rule]) -> Result<(), Memory>
        ensures { OnOk result (self.new ≡ mentioned_all self.old (rules_mentions (rule_trees rules.now))) }
    {
        for rule in rules {
            self.mention_rule(alloc, rule)?;
        }
        Ok(())
    }

    /// Mentions what a rule names: its expression's labels, and then the name that it records and the labels that it sets. An alert records nothing.
    fn mention_rule(&mut self, alloc: Global, rule: &Rule) -> Result<(), Memory>
        ensures { OnOk result (self.new ≡ mentioned_all self.old (rule_mentions (rule_tree rule.now))) }
    {
        visit(alloc, self, &rule.expr)?;
        if rule.alert {
            return Ok(());
        }
        self.mention_text(alloc, METRIC, rule.name.as_str())?;
        self.mention_set(alloc, rule.labels.as_slice())
    }
}

// Each expression is gone into for what it names itself, so that the deepest need no deep stack. What it calls is looked up once, where it is entered.
impl Visitor for Mentions {
    type Note = Option<Function>;

    ghost use Rattle.std.specs.Prelude.{◌≡◌};
    ghost use Rattle.std.specs.Option.{option_map};
    ghost use Rattle.lf_ast.specs.Functions.{called_by, signature_of};
    ghost use Rattle.lf_semantics.specs.Mentions.{mentions};
    ghost use Rattle.lf_ast.specs.declared.walk.choosing.Parts.TheVariants.{All};
    ghost use Rattle.lf_classes.specs.views.Mentioned.{mentioned_all, own_before, own_behind, own_between};
    ghost use Rattle.lf_classes.specs.views.MentionedAlong.{mentioned_along};

    ghost visited = { λ seen e. mentioned_all seen (mentions e) };

    ghost before = { λ seen e. mentioned_all seen (own_before e) };

    ghost between = { λ seen e. mentioned_all seen (own_between e) };

    ghost behind = { λ seen e. mentioned_all seen (own_behind e) };

    ghost needed = { λ e. All };

    ghost notes = { λ e function. option_map signature_of function ≡ called_by e };

    ghost steps = { mentioned_along };

    fn enter(&self, expr: &Expr) -> (Parts, Option<Function>) {
        (Parts::All, Function::called_by(expr))
    }

    fn before(
        &mut self,
        alloc: Global,
        expr: &Expr,
        function: &Option<Function>,
    ) -> Result<(), Memory> {
        match expr {
            Expr::Selector { name, matchers, .. } => {
                self.mention_selector(alloc, name, matchers.as_slice())
            }
            Expr::Call { args, .. } => self.mention_call(alloc, function, args.as_slice()),
            Expr::Aggregate { grouping, args, .. } => {
                self.mention_aggregate(alloc, function, grouping, args.as_slice())
            }
            Expr::Number { .. }
            | Expr::Str { .. }
            | Expr::Subquery { .. }
            | Expr::Paren { .. }
            | Expr::Unary { .. }
            | Expr::Binary { .. } => Ok(()),
        }
    }

    fn between(&mut self, alloc: Global, expr: &Expr) -> Result<(), Memory> {
        match expr {
            Expr::Binary { modifier, .. } => self.mention_modifier(alloc, modifier),
            _ => Ok(()),
        }
    }

    fn behind(
        &mut self,
        alloc: Global,
        expr: &Expr,
        function: &Option<Function>,
    ) -> Result<(), Memory> {
        match expr {
            Expr::Call { args, .. } => self.mention_behind_call(alloc, function, args.as_slice()),
            Expr::Aggregate { grouping, args, .. } => {
                self.mention_behind_aggregate(alloc, function, grouping, args.as_slice())
            }
            _ => Ok(()),
        }
    }
}

impl Mentions {
    /// Mentions what a selector names.
    fn mention_selector(
        &mut self,
        alloc: Global,
        name: &Option<Text>,
        matchers: &[Matcher],
    ) -> Result<(), Memory>
        ensures { OnOk result (self.new ≡ mentioned_all self.old (name_mentions name.now ++ matchers_mentions matchers.now)) }
    {
        self.mention_name(alloc, name)?;
        self.mention_matchers(alloc, matchers)
    }

    /// Mentions what a call of a function names before its arguments.
    fn mention_call(
        &mut self,
        alloc: Global,
        function: &Option<Function>,
        args: &[Expr],
    ) -> Result<(), Memory>
        ensures { OnOk result (self.new ≡ mentioned_all self.old (called_before (option_map signature_of function.now) (texts_of (trees args.now)))) }
    {
        match function {
            Some(function) => self.mention_before(alloc, function.labels, args),
            None => Ok(()),
        }
    }

    /// Mentions what a call of a function names behind its arguments.
    fn mention_behind_call(
        &mut self,
        alloc: Global,
        function: &Option<Function>,
        args: &[Expr],
    ) -> Result<(), Memory>
        ensures { OnOk result (self.new ≡ mentioned_all self.old (called_behind (option_map signature_of function.now) (texts_of (trees args.now)))) }
    {
        match function {
            Some(function) => self.mention_behind(alloc, function.labels, args),
            None => Ok(()),
        }
    }

    /// Mentions what an aggregation names before its arguments: its grouping, if that stands there, and what it reads off its strings.
    fn mention_aggregate(
        &mut self,
        alloc: Global,
        function: &Option<Function>,
        grouping: &Grouping,
        args: &[Expr],
    ) -> Result<(), Memory>
        ensures { OnOk result (self.new ≡ mentioned_all self.old (cond (stands_first (group_names grouping.now) (trees args.now)) (names_mentions (group_names grouping.now)) [] ++ called_before (option_map signature_of function.now) (texts_of (trees args.now)))) }
    {
        let names = names_in(grouping);
        self.mention_names_if(alloc, stands_first(names, args), names)?;
        self.mention_call(alloc, function, args)
    }

    /// Mentions what an aggregation names behind its arguments: what it reads off its strings, and its grouping, if that doesn't stand before them.
    fn mention_behind_aggregate(
        &mut self,
        alloc: Global,
        function: &Option<Function>,
        grouping: &Grouping,
        args: &[Expr],
    ) -> Result<(), Memory>
        ensures { OnOk result (self.new ≡ mentioned_all self.old (called_behind (option_map signature_of function.now) (texts_of (trees args.now)) ++ cond (stands_first (group_names grouping.now) (trees args.now)) [] (names_mentions (group_names grouping.now)))) }
    {
        let names = names_in(grouping);
        self.mention_behind_call(alloc, function, args)?;
        self.mention_names_if(alloc, !stands_first(names, args), names)
    }

    /// Mentions labels where they stand here.
    fn mention_names_if(&mut self, alloc: Global, here: bool, names: &[Name]) -> Result<(), Memory>
        ensures { OnOk result (self.new ≡ mentioned_all self.old (cond here (names_mentions names.now) [])) }
    {
        if here {
            self.mention_names(alloc, names)
        } else {
            Ok(())
        }
    }
}

/// The names behind `by` or `without`.
fn names_in(grouping: &Grouping) -> &[Name]
    ensures { result.now ≡ group_names grouping.now }
{
    match grouping {
        Grouping::None => &[],
        Grouping::By { labels } | Grouping::Without { labels } => labels.as_slice(),
    }
}

/// Whether a grouping stands before the arguments.
fn stands_first(names: &[Name], args: &[Expr]) -> bool
    ensures { result ≡ stands_first names.now (trees args.now) }
{
    match (names, args) {
        ([name, ..], [arg, ..]) => name.span.start < span_of(arg).start,
        _ => true,
    }
}
