//! Values on a row: scalars and flow collections.
ghost use Rattle.std.specs.Prelude.{true, ◌≡◌, ◌≤◌, ◌^◌, IfOk};
ghost use Rattle.std.specs.Str.{IsCharBoundary};
ghost use Rattle.lf_base.specs.Answers.{AnswersAs};
ghost use Rattle.lf_scalar.specs.Scalars.{least_above};
ghost use Rattle.lf_yaml.specs.Heads.{begins_scalar as begins_scalar_of};
ghost use Rattle.lf_yaml.specs.Tree.{tree};
ghost use Rattle.lf_yaml.specs.reading.Trees.{value_on, scalar_on, scalar_value as scalar_value_of};
ghost use Rattle.lf_yaml.specs.views.Shown.{shown};
ghost use Rattle.lf_yaml.specs.views.Cursor.{rows_after, IsRowOf};

use crate::flow_items::scalar_node;
use crate::flow_nodes::{flow_list, flow_map};
use crate::head::row_fault;
use crate::node::Node;
use crate::row::ContentLine;
use crate::rows::lines_from;
use crate::scalars::{begins_scalar, scalar};
use crate::source::YamlSource;
use lf_base::Refusal;

/// The indent of a parent whose values have at least so many spaces on their later lines, -1 where they need none.
fn parent_of(above: u32) -> i32
    requires { above ≤ 2 ^ 31 }
    ensures { least_above result ≡ above }
{
    if above == 0 { -1 } else { (above - 1) as i32 }
}

/// The scalar that a row begins, and where the line begins behind it.
fn scalar_value(
    source: YamlSource<'_>,
    row: ContentLine<'_>,
    next: usize,
    above: u32,
) -> Result<(Node, usize), Refusal>
    requires row { IsRowOf source.bytes.now row }
    requires start { IsCharBoundary source.bytes.now next }
    requires above { above ≤ 2 ^ 31 }
    requires begins { begins_scalar_of (shown row) ≡ true }
    ensures gives { AnswersAs (λ x. (tree x.0, rows_after source.entry.bytes.now x.1)) result (scalar_value_of (rows_after source.entry.bytes.now next) (scalar_on source.entry.bytes.now above (shown row.entry))) }
    ensures start { IfOk result (λ x. IsCharBoundary source.entry.bytes.now x.1) }
    ensures further { IfOk result (λ x. next ≤ x.1) }
{
    match scalar(source, row, parent_of(above)) {
        Ok(of) => {
            let behind = lines_from(source, next, of.span.end as usize);
            Ok((scalar_node(of), behind))
        }
        Err(refusal) => Err(refusal),
    }
}

/// The scalar or the flow collection that a row of a file begins, and where the line begins behind it. The lines behind the row's own begin at `next`.
///
/// The later lines of a plain or block scalar have at least `above` spaces, and `depth` is how many collections may stand one in another from here on: a flow collection is `TooDeep` where that is 0.
#[tactic(auto, unfolding(crate::specs::reading::Trees::value_on))]
pub fn value(
    source: YamlSource<'_>,
    row: ContentLine<'_>,
    next: usize,
    above: u32,
    depth: u32,
) -> Result<(Node, usize), Refusal>
    requires row { IsRowOf source.bytes.now row }
    requires start { IsCharBoundary source.bytes.now next }
    requires above { above ≤ 2 ^ 31 }
    ensures gives { AnswersAs (λ x. (tree x.0, rows_after source.entry.bytes.now x.1)) result (value_on source.entry.bytes.now above depth (shown row.entry) (rows_after source.entry.bytes.now next)) }
    ensures start { IfOk result (λ x. IsCharBoundary source.entry.bytes.now x.1) }
    ensures further { IfOk result (λ x. next ≤ x.1) }
{
    if begins_scalar(row) {
        return scalar_value(source, row, next, above);
    }
    match row.text[0] {
        b'[' => flow_list(source, depth, row, next),
        b'{' => flow_map(source, depth, row, next),
        _ => Err(row_fault(row)),
    }
}
