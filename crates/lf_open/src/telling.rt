//! What is told of an expression of a rule, by one walk over it.
ghost use Rattle.std.specs.Prelude.{◌≡◌, [], length, map, IfOk};
ghost use Rattle.std.specs.Option.{option_copied};
ghost use Rattle.lf_ast.specs.Tree.{parts_of, tree};
ghost use Rattle.lf_open.specs.views.Telling.{facts_of};
ghost use Rattle.lf_open.specs.views.Told.{made, numbers_by, own, own_fork, own_numbers, own_opens, put_all, told};

use crate::calls::open_at_call;
use crate::forms::effect_of;
use crate::holding::{is_marked, is_source, matches_le};
use crate::known::RuleReadings;
use crate::number_set::NumberSet;
use crate::open_at::OpenAt;
use crate::read_table::ReadTable;
use crate::scalars::is_scalar_by;
use crate::sides::open_at_operator;
use crate::told::ExpressionFacts;
use lf_ast::walk::{Fold, Parts, fold_up};
use lf_ast::{Expr, selected_name};
use lf_base::{Memory, Seq, Text};
use lf_forks::is_or;
use std::alloc::Global;

/// What is told of an expression of the rule of a number. Each part is looked at once.
pub(crate) fn tell(
    alloc: Global,
    known: &RuleReadings<'_>,
    table: &ReadTable,
    rule: u32,
    expr: &Expr,
) -> Result<ExpressionFacts, Memory>
    ensures { IfOk result (λ made. made ≡ told (record { forks = known.now.forks.now; loud = known.now.loud.now; on_le = known.now.on_le.now; table = table.now; all = known.now.reading.now.all; rule = rule }) (tree expr.now)) }
{
    fold_up(alloc, &Telling { known, table, rule }, expr)
}

/// Tells of an expression of a rule by what is told of its parts.
#[derive(Drop)]
struct Telling<'a> {
    known: &'a RuleReadings<'a>,
    table: &'a ReadTable,
    rule: u32,
}

impl<'a> Fold for Telling<'a> {
    type Value = ExpressionFacts;

    type Note = ();

    ghost use Rattle.lf_ast.specs.declared.walk.choosing.Parts.TheVariants.{All};
    ghost use Rattle.lf_open.specs.views.Telling.{facts_of};
    ghost use Rattle.lf_open.specs.views.Told.{told};

    ghost value = { λ t e. told (facts_of t) e };

    ghost needed = { λ t e. All };

    ghost notes = { λ e note. Unit {0} };

    fn enter(&self, _expr: &Expr) -> (Parts, ()) {
        (Parts::All, ())
    }

    fn step(
        &self,
        alloc: Global,
        expr: &Expr,
        _note: (),
        values: Vec<ExpressionFacts>,
    ) -> Result<ExpressionFacts, Memory>
        requires { values.items ≡ map (told (facts_of self.now)) (parts_of (tree expr.now)) }
        ensures { IfOk result (λ made. made ≡ told (facts_of self.now) (tree expr.now)) }
    {
        self.made(alloc, expr, values)
    }
}

impl<'a> Telling<'a> {
    /// What is told of an expression, by what is told of its parts. A scalar has nothing in it.
    fn made(
        &self,
        alloc: Global,
        expr: &Expr,
        parts: Vec<ExpressionFacts>,
    ) -> Result<ExpressionFacts, Memory>
        requires { length parts.items ≡ length (parts_of (tree expr.now)) }
        ensures { IfOk result (λ told. told ≡ made (facts_of self.now) (tree expr.now) parts.items) }
    {
        if is_scalar_by(expr, parts.as_slice()) {
            return Ok(ExpressionFacts::nothing(alloc, true));
        }
        let own = self.own(alloc, expr, parts.as_slice())?;
        own.gather(alloc, parts)
    }

    /// What is told of an expression for itself, and not for what its parts hold.
    fn own(
        &self,
        alloc: Global,
        expr: &Expr,
        parts: &[ExpressionFacts],
    ) -> Result<ExpressionFacts, Memory>
        requires { length parts.now ≡ length (parts_of (tree expr.now)) }
        ensures { IfOk result (λ told. told ≡ own (facts_of self.now) (tree expr.now) parts.now) }
    {
        let fork = self.is_fork(alloc, expr)?;
        let reads = self.own_reads(alloc, expr)?;
        let found = self.own_opens(alloc, expr, parts)?;
        Ok(ExpressionFacts {
            scalar: false,
            fork,
            loud: is_source(expr) || is_marked(self.known.loud, expr),
            bucket: matches_le(expr) || is_marked(self.known.on_le, expr),
            reads,
            found,
        })
    }

    /// Whether an expression is a fork, or a selector that reads one.
    fn is_fork(&self, alloc: Global, expr: &Expr) -> Result<bool, Memory>
        ensures { IfOk result (λ fork. fork ≡ own_fork (facts_of self.now) (tree expr.now)) }
    {
        match expr {
            Expr::Selector { .. } => self.known.forks.is_in(alloc, expr),
            Expr::Binary { op, .. } => Ok(is_or(*op)),
            _ => Ok(false),
        }
    }

    /// The numbers of the names that an expression reads, if it is a selector.
    fn own_reads(&self, alloc: Global, expr: &Expr) -> Result<NumberSet, Memory>
        ensures { IfOk result (λ reads. reads ≡ put_all (own_numbers (facts_of self.now) (tree expr.now)) []) }
    {
        match expr {
            Expr::Selector { name, matchers, .. } => NumberSet::of(
                alloc,
                self.numbers_by(selected_name(name, matchers.as_slice())),
            ),
            _ => Ok(NumberSet::new(alloc)),
        }
    }

    /// The numbers of the names that a selector reads, by the name that it says.
    fn numbers_by(&self, name: Option<&Text>) -> &[usize]
        ensures { result.now ≡ numbers_by (facts_of self.now) (option_copied name.entry) }
    {
        match name {
            Some(name) => self.table.read_by(name.as_str()),
            None => self.known.reading.all_numbers(),
        }
    }

    /// What is open at an expression by what is told of its parts.
    fn own_opens(
        &self,
        alloc: Global,
        expr: &Expr,
        parts: &[ExpressionFacts],
    ) -> Result<Seq<OpenAt>, Memory>
        requires { length parts.now ≡ length (parts_of (tree expr.now)) }
        ensures { IfOk result (λ found. found ≡ own_opens (facts_of self.now) (tree expr.now) parts.now) }
    {
        match expr {
            Expr::Binary { op, span, .. } => {
                open_at_operator(alloc, self.rule, *op, *span, &parts[0], &parts[1])
            }
            Expr::Call { span, .. } => {
                open_at_call(alloc, self.rule, effect_of(expr), *span, parts)
            }
            _ => Ok(Seq::new(alloc)),
        }
    }
}
