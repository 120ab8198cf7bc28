//! The parts of a flow collection, one by one: the items of a sequence, or the entries of a mapping.
ghost use Rattle.std.specs.Prelude.{◌≡◌, ℕ, List, [], IfOk};
ghost use Rattle.lf_base.specs.Answers.{AnswersAs};
ghost use Rattle.lf_base.specs.declared.place.Span.{Span};
ghost use Rattle.lf_yaml.specs.Tree.{Tree, tree};
ghost use Rattle.lf_yaml.specs.reading.Trees.{FlowTree};
ghost use Rattle.lf_yaml.specs.reading.FlowTurns.{IsTurnIn, TurnGives};
ghost use Rattle.lf_yaml.specs.views.Places.{IsPartIn, IsPlaceIn};
ghost use Rattle.lf_yaml.specs.views.Shown.{shown};

use crate::node::Node;
use crate::place::FlowCursor;
use crate::row::ContentLine;
use crate::source::YamlSource;
use crate::turn::Turn;
use lf_base::{Refusal, Seq, Span};

/// What reads the parts of a flow collection, and makes a node of them.
pub trait FlowParts {
    /// A part: an item or an entry.
    type Part: Drop;

    /// The tree of a collection with these parts.
    ghost made: { List Self.Part → Span → Tree };

    /// What is read of a collection where some parts were found, and the rest begins at an offset.
    ghost behind: { Self → List ℕ → List Self.Part → ℕ → FlowTree → Type 0 };

    /// What stands at a place where a part may begin.
    fn turn<'a>(
        &mut self,
        source: YamlSource<'a>,
        place: FlowCursor<'a>,
    ) -> Result<Turn<'a, Self::Part>, Refusal>
        requires place { IsPlaceIn source.bytes.now place }
        ensures gives { (found : List Self.Part) (read : FlowTree) → behind self.old source.entry.bytes.now found place.entry.at read → TurnGives made (λ parts at whole. behind self.new source.entry.bytes.now parts at whole) found read result }
        ensures turn { IfOk result (λ t. IsTurnIn source.entry.bytes.now place.entry.at t) };

    /// A node with these parts.
    fn node(parts: Seq<Self::Part>, span: Span) -> Node
        ensures { tree result ≡ made parts span };
}

/// The parts of a flow collection from the place behind its opening bracket on, its closing bracket, and where the lines behind that begin.
pub fn flow_parts<'a, P: FlowParts>(
    source: YamlSource<'a>,
    reader: &mut P,
    place: FlowCursor<'a>,
) -> Result<(Seq<P::Part>, ContentLine<'a>, usize), Refusal>
    requires place { IsPlaceIn source.bytes.now place }
    ensures gives { (read : FlowTree) → P.behind reader.old source.entry.bytes.now [] place.entry.at read → AnswersAs (λ x. (P.made x.0, (shown x.1).first)) result read }
    ensures part { IfOk result (λ x. IsPartIn source.entry.bytes.now x.1 x.2) }
{
    let mut parts = Seq::new(source.alloc);
    let mut at = place;
    'parts: loop {
        match reader.turn(source, at) {
            Ok(Turn::Ends { closing, next }) => return Ok((parts, closing, next)),
            Ok(
                Turn::Last {
                    found,
                    closing,
                    next,
                },
            ) => {
                return match parts.push(found) {
                    Ok(()) => Ok((parts, closing, next)),
                    Err(_) => Err(Refusal::Memory),
                };
            }
            Ok(Turn::More { found, place }) => match parts.push(found) {
                Ok(()) => at = place,
                Err(_) => return Err(Refusal::Memory),
            },
            Err(refusal) => return Err(refusal),
        }
    }
}
