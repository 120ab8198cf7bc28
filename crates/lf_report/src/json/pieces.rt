//! Pieces of JSON. Each function appends one behind what was written before.
ghost use Rattle.std.specs.Prelude.{◌≡◌, ◌++◌, false, nat_lt, IfOk, OnOk};
ghost use Rattle.serde_json.specs.Data.{Data, string};
ghost use Rattle.serde_json.specs.View.{view};
ghost use Rattle.serde_json.specs.Written.{comma_if, compact_text, has_float};
ghost use Rattle.lf_report.specs.Json.{count_data};

use lf_base::{Memory, Text};
use serde_json::Value;
use std::alloc::{AllocError, Global};

/// Appends the comma before the element with this number, which the first one lacks.
pub fn push_comma(text: &mut Text, number: usize) -> Result<(), Memory>
    ensures { OnOk result (text.new ≡ text.old ++ comma_if (nat_lt 0 number)) }
{
    if number > 0 { text.push(",") } else { Ok(()) }
}

/// Appends a value in its compact form.
pub fn push_value(alloc: Global, text: &mut Text, value: &Value) -> Result<(), Memory>
    ensures { (it : Data) → view value.now ≡ it → has_float it ≡ false → OnOk result (text.new ≡ text.old ++ compact_text it) }
{
    let written = value.to_string(alloc)?;
    text.push(written.as_str())
}

/// Appends what stands before a text, and the text.
pub fn push_text(alloc: Global, text: &mut Text, before: &str, of: &str) -> Result<(), Memory>
    ensures { OnOk result (text.new ≡ text.old ++ (before.now ++ compact_text (string of.now))) }
{
    let value = text_value(alloc, of)?;
    text.push(before)?;
    push_value(alloc, text, &value)
}

/// Appends what stands before a number, and the number.
pub fn push_count(alloc: Global, text: &mut Text, before: &str, count: usize) -> Result<(), Memory>
    ensures { OnOk result (text.new ≡ text.old ++ (before.now ++ compact_text (count_data count))) }
{
    text.push(before)?;
    push_value(alloc, text, &Value::from(count))
}

/// A text.
fn text_value(alloc: Global, text: &str) -> Result<Value, AllocError>
    ensures { IfOk result (λ value. view value ≡ string text.now) }
{
    Ok(Value::from(String::from_str(alloc, text)?))
}
