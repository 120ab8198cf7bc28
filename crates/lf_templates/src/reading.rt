//! From a template to its references.
ghost use Rattle.std.specs.Prelude.{◌≡◌, ◌+◌, ◌<◌, length, IfOk, IfErr};
ghost use Rattle.std.specs.List.{AllByRecursion};
ghost use Rattle.std.specs.List.Sorted.{IsNonDecreasing};
ghost use Rattle.lf_base.specs.Answers.{Answers, Breach, Found, IfAt, Only, Refused};
ghost use Rattle.lf_templates.specs.Source.{LiesInSource};
ghost use Rattle.lf_templates.specs.Templates as templates;
ghost use Rattle.lf_templates.specs.reading.Templates as reading;
ghost use Rattle.lf_templates.specs.views.Steps.{Advances};

use crate::action::read_action;
use crate::bytes::starts_with;
use crate::reference::Reference;
use crate::state::{TemplateState, begin, endless, finish, step};
use lf_ast::Template;
use lf_base::bytes::after;
use lf_base::{Refusal, Seq};
use std::alloc::Global;

/// Whether an action begins here.
fn opens(rest: &[u8]) -> bool
    ensures { result ≡ templates.opens rest.now }
{
    starts_with(b'{', b'{', rest)
}

/// The state behind the byte or the action that begins at an offset, and where what follows it begins.
fn advance(
    state: TemplateState,
    alloc: Global,
    text: &str,
    from: &[u32],
    at: usize,
) -> Result<(TemplateState, usize), Refusal>
    requires from { length from.now ≡ length text.now + 1 }
    requires within { at < length text.now }
    ensures { Advances from.now text.now state at result }
{
    let bytes = text.as_bytes();
    if !opens(after(bytes, at)) {
        return Ok((state, at + 1));
    }
    match read_action(alloc, bytes, at + 2)? {
        None => Err(endless(state, from, at)),
        Some(action) => match step(state, alloc, text, from, &action, at) {
            Ok(state) => Ok((state, action.end)),
            Err(refusal) => Err(refusal),
        },
    }
}

/// The references to labels in a template, in the order of its text: `$labels.NAME`, `.Labels.NAME` and `$.Labels.NAME` in its actions, but not where the template
/// may have given these another meaning: in the body of a `range`, a `with`, a `define` or a `block`, and from an action on that sets `$labels` anew.
///
/// The first breach is refused: `OpenAction` at a `{{` without its `}}`, `BadAction` at an action that can't be read, that stands without the body that it belongs
/// to, or that opens a body which isn't closed. Spans are offsets of the source: entry k of the template's `from` is that of byte k of its text, and its last entry
/// that of the text's end.
pub fn references(alloc: Global, template: &Template) -> Result<Seq<Reference>, Refusal>
    requires from { length template.now.from ≡ length template.now.text + 1 }
    requires rises { IsNonDecreasing template.now.from }
    // What is answered are the template's references.
    ensures found { Found (λ found. found) (templates.References template.now.from template.now.text) result }
    // They are answered, unless memory runs out; so no template has two lists of references.
    ensures only { Only (λ found. found) (templates.References template.now.from template.now.text) result }
    // What is refused is the breach of a template.
    ensures refused { Refused (templates.Breaks template.now.from template.now.text) result }
    // It is refused, unless memory runs out; so no template has two breaches, nor one and references.
    ensures breach { Breach (λ found. found) (templates.Breaks template.now.from template.now.text) result }
    // The spans of the references lie in the source of the template's text.
    ensures inside { IfOk result (AllByRecursion (λ reference. LiesInSource template.now.from reference.span)) }
    // So does that of a refusal.
    ensures refused_inside { IfErr result (λ refusal. IfAt refusal (λ fault. LiesInSource template.now.from fault.span)) }
{
    read(alloc, template.text.as_str(), template.from.as_slice())
}

/// The references of a text, told in the words of the way of reading.
fn read(alloc: Global, text: &str, from: &[u32]) -> Result<Seq<Reference>, Refusal>
    requires from { length from.now ≡ length text.now + 1 }
    ensures { Answers result (reading.reading from.now text.now) }
{
    let mut state = begin(alloc);
    let mut at = 0;
    while at < text.len() {
        match advance(state, alloc, text, from, at) {
            Ok((next, place)) => {
                state = next;
                at = place;
            }
            Err(refusal) => return Err(refusal),
        }
    }
    finish(state)
}
