//! How a part of a flow collection begins, and what is told of one that can't stand where it does.
ghost use Rattle.std.specs.Prelude.{◌≡◌, ◌||◌, cond, ℕ, suc, ◌<◌, length, get_or, drop};
ghost use Rattle.lf_scalar.specs.Block.{begins_blank as begins_blank_of};
ghost use Rattle.lf_scalar.specs.Cells.{cell, cells};
ghost use Rattle.lf_scalar.specs.views.Built.{refused};
ghost use Rattle.lf_yaml.specs.Flow.{is_bracket as is_bracket_of, begins_flow as begins_flow_of, is_flow_property as is_flow_property_of, part_fault as part_fault_of, sign_fault as sign_fault_of};
ghost use Rattle.lf_base.specs.declared.kind.Kind.TheVariants.{LeftOut, NotANode};
ghost use Rattle.lf_yaml.specs.views.Shown.{shown};

use crate::head::first_fault;
use crate::row::ContentLine;
use lf_base::{Kind, Refusal};
use lf_scalar::lines::is_blank_byte;
use lf_scalar::markers::is_apart;
use lf_scalar::plain_signs::is_plain_byte;

/// Whether a byte is one of `[` and `{`.
pub fn is_bracket(byte: u8) -> bool
    ensures { (at : ℕ) → result ≡ is_bracket_of (cell byte at) }
{
    matches!(byte, b'[' | b'{')
}

/// Whether a text begins with a blank.
fn begins_blank(text: &[u8]) -> bool
    ensures { (at : ℕ) → result ≡ begins_blank_of (cells at text.now) }
{
    match text {
        [] => false,
        [byte, ..] => is_blank_byte(*byte),
    }
}

/// Whether a part begins as a plain scalar of a flow collection does. `rest` is what stands behind its first byte.
pub fn begins_flow_bytes(first: u8, rest: &[u8]) -> bool
    ensures { (at : ℕ) → result ≡ begins_flow_of (cell first at) (cells (suc at) rest.now) }
{
    is_plain_byte(first) || (first == b'-' && !is_apart(rest))
}

/// The kind of what is told of a part: a form that the profile leaves out, or one that can't stand there.
fn fault_kind(left_out: bool) -> Kind
    ensures { result ≡ cond left_out LeftOut NotANode }
{
    if left_out {
        Kind::LeftOut
    } else {
        Kind::NotANode
    }
}

/// Whether a text begins as an anchor, an alias, a tag or a complex key of a flow collection.
fn is_flow_property(text: &[u8]) -> bool
    requires { 0 < length text.now }
    ensures { (at : ℕ) → result ≡ is_flow_property_of (cell (get_or text.now 0 0) at) (cells (suc at) (drop 1 text.now)) }
{
    match text {
        [b'&' | b'*' | b'!', ..] => true,
        [b'?', rest @ ..] => begins_blank(rest),
        [_, ..] => false,
        [] => false,
    }
}

/// Whether a part begins with a bracket, or as an anchor, an alias, a tag or a complex key.
fn is_left_out_part(part: ContentLine<'_>) -> bool
    ensures { result ≡ (is_bracket_of (shown part.entry).first || is_flow_property_of (shown part.entry).first (shown part.entry).rest) }
{
    is_bracket(part.text[0]) || is_flow_property(part.text)
}

/// What is told of a part where a scalar or a key is wanted that can't begin one.
pub fn part_fault(part: ContentLine<'_>) -> Refusal
    ensures { result ≡ refused (part_fault_of (shown part.entry).first (shown part.entry).rest) }
{
    first_fault(fault_kind(is_left_out_part(part)), part)
}

/// What is told of a part where a sign is wanted.
pub fn sign_fault(part: ContentLine<'_>) -> Refusal
    ensures { result ≡ refused (sign_fault_of (shown part.entry).first) }
{
    first_fault(fault_kind(is_bracket(part.text[0])), part)
}
