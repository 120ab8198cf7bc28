//! The values of the parts of expressions, for each expression those of its own parts.
ghost use Rattle.std.specs.Prelude.{◌≡◌, map, IfOk};
ghost use Rattle.lf_ast.specs.Tree.{Tree, parts_of, tree, nodes};

use crate::choosing::take_last;
use crate::counting::part_count;
use lf_ast::Expr;
use lf_ast::walk::nodes_of;
use lf_base::{Memory, Seq};
use std::alloc::Global;

/// For an expression and for each part in it the values of its own parts, from the values of all. They go in the order of the text, each before its own parts. No value is
/// copied.
pub fn by_parts<T: Drop>(alloc: Global, expr: &Expr, values: Vec<T>) -> Result<Vec<Seq<T>>, Memory>
    requires { (value : Tree → T) × (values.items ≡ map value (nodes (tree expr.now))) }
    ensures { (value : Tree → T) → values.items ≡ map value (nodes (tree expr.now)) → IfOk result (λ groups. groups.items ≡ map (λ x. map value (parts_of x)) (nodes (tree expr.now))) }
{
    let mut nodes = nodes_of(alloc, expr)?;
    let mut left = Seq::from_vec(values);
    let mut stack = Vec::new(alloc);
    let mut groups = Vec::new(alloc);
    while let Some(node) = nodes.pop() {
        let own = take_last(&mut stack, part_count(node))?;
        groups.push(Seq::from_vec(own))?;
        stack.push(left.pop().unwrap())?;
    }
    groups.reverse();
    Ok(groups)
}
