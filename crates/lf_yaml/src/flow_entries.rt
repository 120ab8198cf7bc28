//! Flow mappings.
ghost use Rattle.std.specs.Prelude.{◌≡◌, ℕ, suc, ◌<◌, ◌≤◌, List, [], ◌∷◌, ◌++◌, length, get_or, IfOk};
ghost use Rattle.lf_base.specs.Answers.{AnswersAs};
ghost use Rattle.lf_scalar.specs.Scalars.{value as scalar_value};
ghost use Rattle.lf_yaml.specs.Tree.{leaf, pair, tree};
ghost use Rattle.lf_yaml.specs.Flow.{next_on};
ghost use Rattle.lf_yaml.specs.reading.Trees.{Later, flow_key as flow_key_of, mapping_sign, key_behind, mapping_in};
ghost use Rattle.lf_yaml.specs.views.KeySets.{HasKeys};
ghost use Rattle.lf_yaml.specs.views.Places.{IsPartIn, IsPlaceIn, signed};
ghost use Rattle.lf_yaml.specs.reading.FlowTurns.{IsTurnIn, HasTurned, TurnsEntries, new_key as new_key_of, entry_at, left_behind, entries_tree};
ghost use Rattle.lf_yaml.specs.views.Shown.{shown};

use crate::flow_items::scalar_node;
use crate::flow_key::flow_key;
use crate::flow_parts::FlowParts;
use crate::flow_scalar::sign_fault;
use crate::flow_value::flow_value;
use crate::key_set::KeySet;
use crate::made::mapping_node;
use crate::node::{Entry, Node};
use crate::parts::{behind, next_part};
use crate::place::FlowCursor;
use crate::row::ContentLine;
use crate::source::YamlSource;
use crate::turn::Turn;
use lf_base::{Kind, Refusal, Seq, Span};
use lf_scalar::Scalar;
use std::alloc::Global;

/// The entry of a key whose value is a scalar.
fn scalar_entry(key: Scalar, of: Scalar) -> Entry
    ensures { pair result ≡ (scalar_value key, leaf (scalar_value of)) }
{
    Entry {
        key,
        value: scalar_node(of),
    }
}

/// The key that a part begins, and the place of its `:` in the part. It is put into the set of the keys before it, to which it is new.
fn new_key(
    source: YamlSource<'_>,
    keys: &mut KeySet,
    part: ContentLine<'_>,
    next: usize,
) -> Result<(Scalar, usize), Refusal>
    requires part { IsPartIn source.bytes.now part next }
    ensures gives { (before : List (List ℕ)) → HasKeys keys.old before → AnswersAs (signed part.entry) result (new_key_of source.entry.bytes.now before (shown part.entry).first (shown part.entry).rest) }
    ensures keys { (before : List (List ℕ)) → HasKeys keys.old before → IfOk result (λ x. HasKeys keys.new (before ++ x.0.text ∷ [])) }
    ensures within { IfOk result (λ x. x.1 < length part.entry.text.now) }
    ensures sign { IfOk result (λ x. get_or part.entry.text.now x.1 0 ≡ 58) }
{
    match flow_key(source, part, next) {
        Ok((key, place)) => {
            if keys.contains(key.text.as_str()) {
                return Err(Refusal::At {
                    kind: Kind::DoubleKey,
                    span: key.span,
                });
            }
            match keys.add(key.text.as_str()) {
                Ok(()) => Ok((key, place)),
                Err(_) => Err(Refusal::Memory),
            }
        }
        Err(refusal) => Err(refusal),
    }
}

/// The entry that a part begins, and the place behind it.
fn entry_from<'a>(
    source: YamlSource<'a>,
    keys: &mut KeySet,
    part: ContentLine<'a>,
    next: usize,
) -> Result<(Entry, FlowCursor<'a>), Refusal>
    requires part { IsPartIn source.bytes.now part next }
    ensures gives { (before : List (List ℕ)) → HasKeys keys.old before → AnswersAs left_behind result (entry_at source.entry.bytes.now before (shown part.entry).first (shown part.entry).rest) }
    ensures keys { (before : List (List ℕ)) → HasKeys keys.old before → IfOk result (λ x. HasKeys keys.new (before ++ (pair x.0).0.text ∷ [])) }
    ensures place { IfOk result (λ x. IsPlaceIn source.entry.bytes.now x.1) }
    ensures further { IfOk result (λ x. part.entry.at ≤ x.1.at) }
{
    match new_key(source, keys, part, next) {
        Ok((key, colon)) => {
            let at = part.at + colon as u32;
            match flow_value(source, at, behind(part, colon + 1, next)) {
                Ok((of, place)) => Ok((scalar_entry(key, of), place)),
                Err(refusal) => Err(refusal),
            }
        }
        Err(refusal) => Err(refusal),
    }
}

/// What stands behind an entry: a comma, or the bracket that closes.
fn entry_sign<'a>(
    source: YamlSource<'a>,
    found: Entry,
    place: FlowCursor<'a>,
) -> Result<Turn<'a, Entry>, Refusal>
    requires place { IsPlaceIn source.bytes.now place }
    ensures gives { (later : Later) (before : List (List ℕ)) → TurnsEntries later before result
        (mapping_sign (λ at. later (before ++ (pair found).0.text ∷ []) at) (pair found).0 (pair found).1 (next_on source.entry.bytes.now place.entry.at)) }
    ensures turn { IfOk result (λ t. IsTurnIn source.entry.bytes.now place.entry.at t) }
    ensures found { (set : KeySet) (before : List (List ℕ)) → HasKeys set (before ++ (pair found).0.text ∷ []) → IfOk result (λ t. HasTurned set before t) }
{
    match next_part(source, place) {
        Ok((part, next)) => match part.text[0] {
            b',' => Ok(Turn::More {
                found,
                place: behind(part, 1, next),
            }),
            b'}' => Ok(Turn::Last {
                found,
                closing: part,
                next,
            }),
            _ => Err(sign_fault(part)),
        },
        Err(refusal) => Err(refusal),
    }
}

/// The entry that a part begins, and what stands behind it. The lines behind the part's own begin at `next`.
fn entry_on<'a>(
    source: YamlSource<'a>,
    keys: &mut KeySet,
    part: ContentLine<'a>,
    next: usize,
) -> Result<Turn<'a, Entry>, Refusal>
    requires part { IsPartIn source.bytes.now part next }
    ensures gives { (later : Later) (before : List (List ℕ)) → HasKeys keys.old before → TurnsEntries later before result
        (key_behind source.entry.bytes.now later before (flow_key_of source.entry.bytes.now (shown part.entry).first (shown part.entry).rest)) }
    ensures keys { (before : List (List ℕ)) → HasKeys keys.old before → IfOk result (λ t. HasTurned keys.new before t) }
    ensures turn { IfOk result (λ t. IsTurnIn source.entry.bytes.now part.entry.at t) }
{
    match entry_from(source, keys, part, next) {
        Ok((found, place)) => entry_sign(source, found, place),
        Err(refusal) => Err(refusal),
    }
}

/// What stands at a place of a flow mapping where an entry may begin.
#[tactic(auto, unfolding(crate::specs::reading::Trees::mapping_in))]
fn entry_turn<'a>(
    source: YamlSource<'a>,
    keys: &mut KeySet,
    place: FlowCursor<'a>,
) -> Result<Turn<'a, Entry>, Refusal>
    requires place { IsPlaceIn source.bytes.now place }
    ensures gives { (m : ℕ) (before : List (List ℕ)) → HasKeys keys.old before → TurnsEntries (λ ks at. mapping_in source.entry.bytes.now m ks at) before result (mapping_in source.entry.bytes.now (suc m) before place.entry.at) }
    ensures keys { (before : List (List ℕ)) → HasKeys keys.old before → IfOk result (λ t. HasTurned keys.new before t) }
    ensures turn { IfOk result (λ t. IsTurnIn source.entry.bytes.now place.entry.at t) }
{
    match next_part(source, place) {
        Ok((part, next)) => {
            if part.text[0] == b'}' {
                return Ok(Turn::Ends {
                    closing: part,
                    next,
                });
            }
            entry_on(source, keys, part, next)
        }
        Err(refusal) => Err(refusal),
    }
}

/// The entries of a flow mapping.
#[derive(Drop)]
pub struct FlowEntries {
    /// The texts of the keys before.
    keys: KeySet,
}

impl FlowEntries {
    /// Those of a mapping that begins.
    pub fn new(alloc: Global) -> FlowEntries
        ensures { HasKeys result.keys [] }
    {
        FlowEntries {
            keys: KeySet::new(alloc),
        }
    }
}

impl FlowParts for FlowEntries {
    type Part = Entry;

    ghost use Rattle.lf_yaml.specs.reading.FlowTurns.{entries_tree, EntriesBehind};

    ghost made = { entries_tree };

    ghost behind = { λ entries bytes found at read. EntriesBehind bytes entries.keys found at read };

    fn turn<'a>(
        &mut self,
        source: YamlSource<'a>,
        place: FlowCursor<'a>,
    ) -> Result<Turn<'a, Entry>, Refusal> {
        entry_turn(source, &mut self.keys, place)
    }

    fn node(parts: Seq<Entry>, span: Span) -> Node
        ensures { tree result ≡ entries_tree parts span }
    {
        mapping_node(parts, span)
    }
}
