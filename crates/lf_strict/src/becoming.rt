//! Sets that are made of a set sample by sample.
ghost use Rattle.std.specs.Prelude.{◌≡◌, IfOk, Some, length};
ghost use Rattle.std.specs.List.{AllZip};
ghost use Rattle.lf_ast.specs.Labels.{Labels};
ghost use Rattle.lf_witness.specs.Ascending.{IsAscending};
ghost use Rattle.lf_witness.specs.Strict.{MadeApart, MadeTogether};
ghost use Rattle.lf_witness.specs.StrictRuns.{InOrder};

use crate::apart::{apart, together};
use crate::lending::{Held, Samples};
use lf_ast::LabelSet;
use lf_base::{Memory, Seq};
use std::alloc::Global;

/// What a sample becomes.
pub trait Becoming {
    /// What it may become.
    ghost becomes: { Self → Labels → Labels → Type 0 };

    /// What a sample becomes.
    fn of(&self, alloc: Global, sample: LabelSet) -> Result<LabelSet, Memory>
        ensures { IfOk result (λ made. becomes self.now sample made) };

    /// What a stored sample becomes.
    fn of_lent(&self, alloc: Global, sample: &LabelSet) -> Result<LabelSet, Memory>
        ensures { IfOk result (λ made. becomes self.now sample.now made) };

    /// It is one.
    ghost one: { (how : Self) (s t u : Labels) → becomes how s t → becomes how s u → t ≡ u };
}

/// What the samples become, in ascending order, and None where two become one. Most sets have one sample, which isn't put in order.
pub fn made_apart<'a, B: Becoming>(
    alloc: Global,
    how: &B,
    samples: Samples<'_>,
) -> Result<Option<Samples<'a>>, Memory>
    requires { IsAscending samples }
    ensures { IfOk result (InOrder (MadeApart (B.becomes how.now) samples.entry)) }
{
    if samples.len() == 1 {
        return Ok(Some(only_made(alloc, how, samples)?));
    }
    let listed = samples.into_list(alloc)?;
    let made = each_made(alloc, how, listed)?;
    Ok(apart(made))
}

/// What the samples become, in ascending order, where those that become one count once.
pub fn made_together<'a, B: Becoming>(
    alloc: Global,
    how: &B,
    samples: Samples<'_>,
) -> Result<Samples<'a>, Memory>
    ensures { IfOk result (λ set. InOrder (MadeTogether (B.becomes how.now) samples.entry) (Some set)) }
{
    if samples.len() == 1 {
        return only_made(alloc, how, samples);
    }
    let listed = samples.into_list(alloc)?;
    let made = each_made(alloc, how, listed)?;
    Ok(together(made))
}

/// What the only sample becomes, in its place.
fn only_made<'a, B: Becoming>(
    alloc: Global,
    how: &B,
    samples: Samples<'_>,
) -> Result<Samples<'a>, Memory>
    requires { length samples ≡ 1 }
    ensures { IfOk result (AllZip (B.becomes how.now) samples.entry) }
{
    match samples.held {
        Held::Nothing => Ok(Samples::new()),
        Held::Lent { sample } => Ok(Samples::alone(how.of_lent(alloc, sample)?)),
        Held::Alone { sample } => Ok(Samples::alone(how.of(alloc, sample)?)),
        Held::Listed { mut samples } => match samples.pop() {
            Some(sample) => Ok(Samples::alone(how.of(alloc, sample)?)),
            None => Ok(Samples::new()),
        },
    }
}

/// What each sample becomes.
fn each_made<B: Becoming>(
    alloc: Global,
    how: &B,
    mut samples: Seq<LabelSet>,
) -> Result<Vec<LabelSet>, Memory>
    ensures { IfOk result (λ made. AllZip (B.becomes how.now) samples made.items) }
{
    let mut made = Vec::with_capacity(alloc, samples.len())?;
    while let Some(sample) = samples.pop() {
        made.push(how.of(alloc, sample)?)?;
    }
    made.reverse();
    Ok(made)
}
