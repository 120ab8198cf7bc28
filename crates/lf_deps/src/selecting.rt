//! What an expression selects.
ghost use Rattle.std.specs.Prelude.{◌≡◌, ◌∷◌, ◌++◌, [], IfOk, OnOk};
ghost use Rattle.lf_ast.specs.Selectors.{selected_name};
ghost use Rattle.lf_ast.specs.Tree.{tree};
ghost use Rattle.lf_deps.specs.Reading.{own_selectors, selectors};
ghost use Rattle.lf_deps.specs.views.Selecting.{is_scalar_call, parts_read};

use lf_ast::walk::{Parts, Visitor, visit};
use lf_ast::{Expr, Matcher, is_scalar, selected_name};
use lf_base::{Memory, Seq, Text};
use lf_nodes::gives_scalar;
use std::alloc::Global;

/// The selectors of an expression: the name that each selects, or none where it says no name. Nothing within a scalar is looked at.
pub fn selectors(alloc: Global, expr: &Expr) -> Result<Seq<Option<Text>>, Memory>
    ensures { IfOk result (λ found. found ≡ selectors (tree expr.now)) }
{
    let mut selecting = Selecting {
        found: Seq::new(alloc),
    };
    visit(alloc, &mut selecting, expr)?;
    Ok(selecting.found)
}

/// Puts the selectors of an expression behind those found.
///
/// Only a call can be a scalar that has selectors: an operator is a scalar where both its sides are.
#[derive(Drop)]
struct Selecting {
    found: Seq<Option<Text>>,
}

impl Visitor for Selecting {
    type Note = ();

    ghost use Rattle.lf_deps.specs.views.Visits.{visits};

    ghost visited = { λ s e. record { found = s.found ++ selectors e } };

    ghost before = { λ s e. record { found = s.found ++ own_selectors e } };

    ghost between = { λ s e. s };

    ghost behind = { λ s e. s };

    ghost needed = { λ e. parts_read e };

    ghost notes = { λ e note. Unit {0} };

    fn enter(&self, expr: &Expr) -> (Parts, ()) {
        if is_scalar_call(expr) {
            (Parts::Nothing, ())
        } else {
            (Parts::All, ())
        }
    }

    fn before(&mut self, _alloc: Global, expr: &Expr, _note: &()) -> Result<(), Memory> {
        match expr {
            Expr::Selector { name, matchers, .. } => {
                select(name, matchers.as_slice(), &mut self.found)
            }
            _ => Ok(()),
        }
    }

    fn between(&mut self, _alloc: Global, _expr: &Expr) -> Result<(), Memory> {
        Ok(())
    }

    fn behind(&mut self, _alloc: Global, _expr: &Expr, _note: &()) -> Result<(), Memory> {
        Ok(())
    }

    ghost steps = { visits };
}

/// Puts what a selector selects behind what was found.
fn select(
    name: &Option<Text>,
    matchers: &[Matcher],
    found: &mut Seq<Option<Text>>,
) -> Result<(), Memory>
    ensures { OnOk result (found.new ≡ found.old ++ selected_name name.now matchers.now ∷ []) }
{
    match selected_name(name, matchers) {
        Some(name) => found.push(Some(name.copy()?)),
        None => found.push(None),
    }
}

/// Whether an expression is a call that is a scalar.
pub fn is_scalar_call(expr: &Expr) -> bool
    ensures { result ≡ is_scalar_call (tree expr.now) }
{
    match expr {
        Expr::Call { name, .. } => gives_scalar(name.as_str()),
        _ => false,
    }
}
