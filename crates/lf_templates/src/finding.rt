//! From the rows in an action to references.
ghost use Rattle.std.specs.Prelude.{◌≡◌, ◌+◌, ◌++◌, ◌≤◌, ◌<◌, ◌^◌, length, drop, false, IfOk, OnOk};
ghost use Rattle.lf_templates.specs.Templates as templates;
ghost use Rattle.lf_templates.specs.reading.Templates.{total, Named, IsRowIn};

use crate::reference::Reference;
use crate::rows::{goes_on, row_here};
use crate::token::{Lexeme, ReferenceSpan};
use lf_base::bytes::{after, before};
use lf_base::{Memory, Seq, Span, Text};
use std::alloc::Global;

/// The reference that a row of fields is.
fn reference_of(
    alloc: Global,
    text: &str,
    from: &[u32],
    row: ReferenceSpan,
) -> Result<Reference, Memory>
    requires from { length from.now ≡ length text.now + 1 }
    requires row { IsRowIn text.now row }
    ensures { IfOk result (λ reference. reference ≡ templates.reference from.now text.now row) }
{
    let name = before(after(text.as_bytes(), row.name), row.end - row.name);
    match str::from_utf8(name) {
        Ok(label) => {
            let label = Text::of(alloc, label)?;
            let span = Span {
                start: from[row.start],
                end: from[row.end],
            };
            Ok(Reference { label, span })
        }
        Err(_) => unreachable!(),
    }
}

/// The tokens that begin at a place.
fn behind(tokens: &[Lexeme], place: usize) -> &[Lexeme]
    requires { place ≤ length tokens.now }
    ensures { result.now ≡ drop place tokens.now }
{
    tokens.split_at(place).1
}

/// Appends the references in an action, the first token of which stands at an offset, but where they are hidden.
pub fn push_references(
    found: &mut Seq<Reference>,
    alloc: Global,
    text: &str,
    from: &[u32],
    hidden: bool,
    tokens: &[Lexeme],
    start: usize,
) -> Result<(), Memory>
    requires from { length from.now ≡ length text.now + 1 }
    requires room { start + total tokens.now ≤ length text.now }
    requires small { length text.now < 2 ^ 63 }
    requires named { Named text.now start tokens.now }
    ensures { OnOk result (found.new ≡ found.old ++ templates.references_at from.now text.now hidden start tokens.now) }
{
    if hidden {
        return Ok(());
    }
    let mut at = start;
    let mut inside = false;
    for (i, lexeme) in tokens.iter().enumerate() {
        match row_here(inside, at, behind(tokens, i)) {
            Some(row) => found.push(reference_of(alloc, text, from, row)?)?,
            None => {}
        }
        inside = goes_on(lexeme.token);
        at += lexeme.len;
    }
    Ok(())
}
