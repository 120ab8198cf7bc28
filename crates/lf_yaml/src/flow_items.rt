//! Flow sequences.
ghost use Rattle.std.specs.Prelude.{◌≡◌, ℕ, suc, IfOk};
ghost use Rattle.lf_scalar.specs.Scalars.{value as scalar_value};
ghost use Rattle.lf_yaml.specs.Tree.{leaf, tree, Items};
ghost use Rattle.lf_yaml.specs.Flow.{next_on};
ghost use Rattle.lf_yaml.specs.reading.Trees.{FlowRead, flow_scalar, sequence_sign, sequence_behind, sequence_in};
ghost use Rattle.lf_yaml.specs.views.Places.{IsPartIn, IsPlaceIn};
ghost use Rattle.lf_yaml.specs.reading.FlowTurns.{IsTurnIn, TurnsItems, items_tree};
ghost use Rattle.lf_yaml.specs.views.Shown.{shown};

use crate::flow_parts::FlowParts;
use crate::flow_scalar::sign_fault;
use crate::made::sequence_node;
use crate::node::Node;
use crate::part_scalar::read_part;
use crate::parts::{behind, next_part};
use crate::place::FlowCursor;
use crate::row::ContentLine;
use crate::source::YamlSource;
use crate::turn::Turn;
use lf_base::{Refusal, Seq, Span};
use lf_scalar::Scalar;

/// The node of a scalar.
pub fn scalar_node(of: Scalar) -> Node
    ensures { tree result ≡ leaf (scalar_value of) }
{
    Node::Scalar { of }
}

/// What stands behind an item: a comma, or the bracket that closes.
fn item_sign<'a>(
    source: YamlSource<'a>,
    item: Scalar,
    place: FlowCursor<'a>,
) -> Result<Turn<'a, Node>, Refusal>
    requires place { IsPlaceIn source.bytes.now place }
    ensures gives { (later : ℕ → FlowRead Items) → TurnsItems later result (sequence_sign later (scalar_value item) (next_on source.entry.bytes.now place.entry.at)) }
    ensures turn { IfOk result (λ t. IsTurnIn source.entry.bytes.now place.entry.at t) }
{
    match next_part(source, place) {
        Ok((part, next)) => match part.text[0] {
            b',' => Ok(Turn::More {
                found: scalar_node(item),
                place: behind(part, 1, next),
            }),
            b']' => Ok(Turn::Last {
                found: scalar_node(item),
                closing: part,
                next,
            }),
            _ => Err(sign_fault(part)),
        },
        Err(refusal) => Err(refusal),
    }
}

/// The item that a part begins, and what stands behind it. The lines behind the part's own begin at `next`.
fn item_on<'a>(
    source: YamlSource<'a>,
    part: ContentLine<'a>,
    next: usize,
) -> Result<Turn<'a, Node>, Refusal>
    requires part { IsPartIn source.bytes.now part next }
    ensures gives { (later : ℕ → FlowRead Items) → TurnsItems later result (sequence_behind source.entry.bytes.now later (flow_scalar source.entry.bytes.now (shown part.entry).first (shown part.entry).rest)) }
    ensures turn { IfOk result (λ t. IsTurnIn source.entry.bytes.now part.entry.at t) }
{
    match read_part(source, part, next) {
        Ok((scalar, place)) => item_sign(source, scalar, place),
        Err(refusal) => Err(refusal),
    }
}

/// What stands at a place of a flow sequence where an item may begin.
#[tactic(auto, unfolding(crate::specs::reading::Trees::sequence_in))]
fn item_turn<'a>(source: YamlSource<'a>, place: FlowCursor<'a>) -> Result<Turn<'a, Node>, Refusal>
    requires place { IsPlaceIn source.bytes.now place }
    ensures gives { (m : ℕ) → TurnsItems (λ at. sequence_in source.entry.bytes.now m at) result (sequence_in source.entry.bytes.now (suc m) place.entry.at) }
    ensures turn { IfOk result (λ t. IsTurnIn source.entry.bytes.now place.entry.at t) }
{
    match next_part(source, place) {
        Ok((part, next)) => {
            if part.text[0] == b']' {
                return Ok(Turn::Ends {
                    closing: part,
                    next,
                });
            }
            item_on(source, part, next)
        }
        Err(refusal) => Err(refusal),
    }
}

/// The items of a flow sequence.
#[derive(Drop)]
pub struct FlowItems;

impl FlowParts for FlowItems {
    type Part = Node;

    ghost use Rattle.lf_yaml.specs.reading.FlowTurns.{items_tree, ItemsBehind};

    ghost made = { items_tree };

    ghost behind = { λ items bytes found at read. ItemsBehind bytes found at read };

    fn turn<'a>(
        &mut self,
        source: YamlSource<'a>,
        place: FlowCursor<'a>,
    ) -> Result<Turn<'a, Node>, Refusal> {
        item_turn(source, place)
    }

    fn node(parts: Seq<Node>, span: Span) -> Node
        ensures { tree result ≡ items_tree parts span }
    {
        sequence_node(parts, span)
    }
}
