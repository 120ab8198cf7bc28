//! The worlds that show labels, as JSON. They are most of a report, so they are written label set by label set.
ghost use Rattle.std.specs.Prelude.{◌≡◌, ◌++◌, false, map, IfOk, OnOk};
ghost use Rattle.serde_json.specs.Data.{object};
ghost use Rattle.serde_json.specs.View.{members_view, view};
ghost use Rattle.serde_json.specs.Written.{compact_text};
ghost use Rattle.lf_report.specs.Json.{count_data, list_data, set_data, world_data};
ghost use Rattle.lf_report.specs.views.Pieces.{listed, world_end};

use crate::json::pieces::{push_comma, push_value};
use lf_ast::{LabelSet, World};
use lf_base::{Memory, Text};
use serde_json::{Map, Value};
use std::alloc::{AllocError, Global};

/// Appends a world.
pub fn push_world(alloc: Global, text: &mut Text, world: &World) -> Result<(), Memory>
    ensures { OnOk result (text.new ≡ text.old ++ compact_text (world_data world.now)) }
{
    text.push("{\"sample\":")?;
    push_set(alloc, text, &world.sample)?;
    text.push(",\"series\":[")?;
    push_sets(alloc, text, world.series.as_slice())?;
    push_world_end(alloc, text, world.steps.as_slice())
}

/// Appends label sets, with commas between them.
fn push_sets(alloc: Global, text: &mut Text, sets: &[LabelSet]) -> Result<(), Memory>
    ensures { OnOk result (text.new ≡ text.old ++ listed false (map set_data sets.now)) }
{
    for k in 0..sets.len() {
        push_comma(text, k)?;
        push_set(alloc, text, &sets[k])?;
    }
    Ok(())
}

/// Appends a label set.
fn push_set(alloc: Global, text: &mut Text, set: &LabelSet) -> Result<(), Memory>
    ensures { OnOk result (text.new ≡ text.old ++ compact_text (set_data set.now)) }
{
    let value = set_value(alloc, set)?;
    push_value(alloc, text, &value)
}

/// A label set: its labels with their texts.
fn set_value(alloc: Global, set: &LabelSet) -> Result<Value, AllocError>
    ensures { IfOk result (λ value. view value ≡ set_data set.now) }
{
    let mut members = Map::new(alloc);
    for k in 0..set.len() {
        let (name, text) = set.pair(k);
        let value = Value::from(String::from_str(alloc, text.as_str())?);
        serde_json::put(&mut members, alloc, name.as_str(), value)?;
    }
    Ok(object_of(members))
}

/// An object of these members.
fn object_of(members: Map<String, Value>) -> Value
    ensures { view result ≡ object (members_view members.entries) }
{
    Value::Object(members)
}

/// Appends the numbers of the rules that are evaluated, with what stands around them, up to the end of the world.
fn push_world_end(alloc: Global, text: &mut Text, steps: &[u32]) -> Result<(), Memory>
    ensures { OnOk result (text.new ≡ text.old ++ world_end steps.now) }
{
    let value = steps_value(alloc, steps)?;
    text.push("],\"steps\":")?;
    push_value(alloc, text, &value)?;
    text.push("}")
}

/// The numbers of rules.
fn steps_value(alloc: Global, steps: &[u32]) -> Result<Value, AllocError>
    ensures { IfOk result (λ value. view value ≡ list_data (map count_data steps.now)) }
{
    let mut values = Vec::new(alloc);
    for step in steps {
        values.push(Value::from(*step))?;
    }
    Ok(Value::Array(values))
}
