//! The line breaks at the end of a block scalar.
ghost use Rattle.std.specs.Prelude.{◌≡◌, ◌+◌, ◌<◌, ◌≤◌, ◌^◌, ◌++◌, length, take, OnOk};
ghost use Rattle.lf_scalar.specs.Lines.{lines_at};
ghost use Rattle.lf_scalar.specs.Block.{line_ends};
ghost use Rattle.lf_scalar.specs.reading.Body.{break_of};

use crate::body::{break_at, line_from};
use crate::builder::ScalarBuilder;
use lf_base::Memory;

/// Appends a line break, if there is one.
pub fn push_break(builder: &mut ScalarBuilder, feed: Option<u32>) -> Result<(), Memory>
    ensures { OnOk result (builder.new ≡ builder.old ++ break_of feed) }
{
    match feed {
        Some(at) => builder.push(b'\n', at),
        None => Ok(()),
    }
}

/// Appends the line breaks of so many lines. The last line may have none.
pub fn push_breaks(
    builder: &mut ScalarBuilder,
    body: &[u8],
    at: u32,
    count: usize,
) -> Result<(), Memory>
    requires room { at + length body.now + 2 < 2 ^ 32 }
    requires within { count ≤ length (lines_at at body.now) }
    ensures { OnOk result (builder.new ≡ builder.old ++ line_ends (at + length body.now) (take count (lines_at at body.now))) }
{
    let mut place: usize = 0;
    for _ in 0..count {
        let end = line_from(body, place);
        push_break(builder, break_at(body, at, place + end.feed))?;
        place += end.feed + 1;
    }
    Ok(())
}
