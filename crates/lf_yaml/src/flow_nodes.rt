//! Flow collections on a row, and what may stand behind them.
ghost use Rattle.std.specs.Prelude.{false, ◌≡◌, suc, ◌+◌, ◌<◌, ◌≤◌, [], get_or, None, Some, IfOk, MatchOption};
ghost use Rattle.std.specs.Str.{IsCharBoundary};
ghost use Rattle.lf_base.specs.declared.kind.Kind.TheVariants.{NotANode};
ghost use Rattle.lf_base.specs.Answers.{AnswersAs};
ghost use Rattle.lf_scalar.specs.Cells.{Cell, character_fault as fault_at_of};
ghost use Rattle.lf_scalar.specs.reading.Quoted.{wrong_behind as wrong_behind_of};
ghost use Rattle.lf_scalar.specs.views.Built.{refused};
ghost use Rattle.lf_yaml.specs.Tree.{tree};
ghost use Rattle.lf_yaml.specs.reading.Trees.{FlowTree, closed as closed_of, flow_list as flow_list_of, flow_map as flow_map_of};
ghost use Rattle.lf_yaml.specs.views.Cursor.{rows_after, IsRowOf};
ghost use Rattle.lf_yaml.specs.views.Shown.{shown};

use crate::flow_entries::FlowEntries;
use crate::flow_items::FlowItems;
use crate::flow_parts::{FlowParts, flow_parts};
use crate::head::first_fault;
use crate::node::Node;
use crate::parts::place_on;
use crate::row::ContentLine;
use crate::rows::lines_from;
use crate::source::YamlSource;
use lf_base::{Kind, Refusal, Span};
use lf_scalar::lines::{fault_at, past, wrong_behind};

/// What is told of what stands behind the bracket that closes a collection, where that isn't blanks and a comment alone.
fn wrong_after(closing: ContentLine<'_>) -> Option<Refusal>
    ensures { MatchOption result (wrong_behind_of false (shown closing.entry).rest ≡ None) (λ e. (c : Cell) × (wrong_behind_of false (shown closing.entry).rest ≡ Some c) × (e ≡ refused (fault_at_of NotANode c))) }
{
    let rest = past(closing.text, 1);
    match wrong_behind(rest) {
        Some(place) => Some(fault_at(Kind::NotANode, rest, place, closing.at + 1)),
        None => None,
    }
}

/// The span from a row's first byte to the end of the bracket that closes its collection.
fn closed_span(row: ContentLine<'_>, closing: ContentLine<'_>) -> Span
    ensures { result ≡ record { start = row.entry.at; end = suc closing.entry.at } }
{
    Span {
        start: row.at,
        end: closing.at + 1,
    }
}

/// The flow collection whose opening bracket a row begins with, and where the line behind it begins.
fn closed<P: FlowParts>(
    source: YamlSource<'_>,
    reader: &mut P,
    row: ContentLine<'_>,
    next: usize,
) -> Result<(Node, usize), Refusal>
    requires row { IsRowOf source.bytes.now row }
    requires start { IsCharBoundary source.bytes.now next }
    requires bracket { get_or row.text.now 0 0 < 128 }
    ensures gives { (read : FlowTree) → P.behind reader.old source.entry.bytes.now [] (row.entry.at + 1) read → AnswersAs (λ x. (tree x.0, rows_after source.entry.bytes.now x.1)) result (closed_of source.entry.bytes.now (shown row.entry) (rows_after source.entry.bytes.now next) read) }
    ensures start { IfOk result (λ x. IsCharBoundary source.entry.bytes.now x.1) }
    ensures further { IfOk result (λ x. next ≤ x.1) }
{
    match flow_parts(source, reader, place_on(source, row.at + 1)) {
        Ok((parts, closing, _)) => match wrong_after(closing) {
            Some(refusal) => Err(refusal),
            None => {
                let left = lines_from(source, next, closing.at as usize + 1);
                Ok((P::node(parts, closed_span(row, closing)), left))
            }
        },
        Err(refusal) => Err(refusal),
    }
}

/// The flow sequence that a row begins. It is `TooDeep` where no collection may stand any more.
pub fn flow_list(
    source: YamlSource<'_>,
    depth: u32,
    row: ContentLine<'_>,
    next: usize,
) -> Result<(Node, usize), Refusal>
    requires row { IsRowOf source.bytes.now row }
    requires start { IsCharBoundary source.bytes.now next }
    requires bracket { get_or row.text.now 0 0 ≡ 91 }
    ensures gives { AnswersAs (λ x. (tree x.0, rows_after source.entry.bytes.now x.1)) result (flow_list_of source.entry.bytes.now depth (shown row.entry) (rows_after source.entry.bytes.now next)) }
    ensures start { IfOk result (λ x. IsCharBoundary source.entry.bytes.now x.1) }
    ensures further { IfOk result (λ x. next ≤ x.1) }
{
    if depth == 0 {
        return Err(first_fault(Kind::TooDeep, row));
    }
    closed(source, &mut FlowItems, row, next)
}

/// The flow mapping that a row begins. It is `TooDeep` where no collection may stand any more.
pub fn flow_map(
    source: YamlSource<'_>,
    depth: u32,
    row: ContentLine<'_>,
    next: usize,
) -> Result<(Node, usize), Refusal>
    requires row { IsRowOf source.bytes.now row }
    requires start { IsCharBoundary source.bytes.now next }
    requires bracket { get_or row.text.now 0 0 ≡ 123 }
    ensures gives { AnswersAs (λ x. (tree x.0, rows_after source.entry.bytes.now x.1)) result (flow_map_of source.entry.bytes.now depth (shown row.entry) (rows_after source.entry.bytes.now next)) }
    ensures start { IfOk result (λ x. IsCharBoundary source.entry.bytes.now x.1) }
    ensures further { IfOk result (λ x. next ≤ x.1) }
{
    if depth == 0 {
        return Err(first_fault(Kind::TooDeep, row));
    }
    closed(source, &mut FlowEntries::new(source.alloc), row, next)
}
