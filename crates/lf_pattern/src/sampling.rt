//! The samples of a pattern.
ghost use Rattle.std.specs.Prelude.{◌≡◌, ◌≢◌, ◌≤◌, [], All, IfOk, IfErr, OnOk, length};
ghost use Rattle.lf_pattern.specs.Matching.{IsRead, Matches};
ghost use Rattle.lf_pattern.specs.Samples.{AreSamples};
ghost use Rattle.lf_pattern.specs.SampleScan.{added, both_added};

use crate::error::PatternError;
use crate::pattern::{Pattern, contains};
use crate::probe::Probe;
use crate::sample::Both;
use crate::shape::read_shape;
use lf_base::{Memory, Seq, Text};
use std::alloc::Global;

/// The samples of a pattern, at most two: texts that it matches, each made of choices that the pattern leaves. A pattern outside the shape that is read for them has
/// none. `BadPattern` comes where [`Pattern::new`] answers it.
pub fn samples(alloc: Global, text: &Text) -> Result<Seq<Text>, PatternError>
    ensures samples { IfOk result (AreSamples text.now) }
    ensures each { IfOk result (All (λ s. (s ≢ []) × (length s ≤ 256) × Matches text.now s)) }
    ensures read { IfOk result (λ _. IsRead text.now) }
    ensures bad { IfErr result (λ e. e ≡ PatternError.BadPattern → IsRead text.now → ⊥) }
{
    let pattern = Pattern::new(alloc, text)?;
    match read_shape(alloc, text)? {
        None => Ok(Seq::new(alloc)),
        Some(both) => Ok(kept(alloc, &pattern, both)?),
    }
}

/// Those of the two samples that are kept, or one where they are equal.
fn kept(alloc: Global, pattern: &Pattern, both: Both) -> Result<Seq<Text>, Memory>
    ensures { IfOk result (λ list. list ≡ both_added pattern.now both) }
{
    let mut probe = pattern.probe(alloc)?;
    let mut list = Seq::new(alloc);
    keep(&mut probe, both.low.into_text(), &mut list)?;
    keep(&mut probe, both.high.into_text(), &mut list)?;
    Ok(list)
}

/// Appends a sample where it is kept and isn't in the list.
fn keep(probe: &mut Probe<'_>, sample: Option<Text>, list: &mut Seq<Text>) -> Result<(), Memory>
    ensures added { OnOk result (list.new ≡ added probe.old list.old sample) }
    ensures same { probe.new ≡ probe.old }
{
    let Some(text) = sample else {
        return Ok(());
    };
    if text.len() == 0 || contains(list, &text) || !probe.matches(&text) {
        return Ok(());
    }
    list.push(text)
}
