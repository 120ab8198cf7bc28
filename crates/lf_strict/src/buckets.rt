//! Buckets of histograms.
ghost use Rattle.std.specs.Prelude.{◌≡◌, ◌&&◌, IfOk, codes, not};
ghost use Rattle.std.specs.Str.{bytes_eq};
ghost use Rattle.std.proofs.Common.{sym, ◌∙◌};
ghost use Rattle.lf_semantics.specs.Grouped.{is_metric};
ghost use Rattle.lf_semantics.specs.Texts.{restricted, value_of};
ghost use Rattle.lf_witness.specs.Strict.{last_buckets};

use crate::becoming::Becoming;
use crate::choosing::AllButNameAndBucket;
use crate::lending::Samples;
use lf_ast::LabelSet;
use lf_base::Memory;
use std::alloc::Global;

/// A sample loses `le` and the metric name.
#[derive(Drop)]
pub struct Unbucketed;

impl Becoming for Unbucketed {
    ghost becomes = { λ how s r. r ≡ restricted (λ label. not (is_metric label) && not (bytes_eq label (codes "le"))) s };

    ghost one = { λ how s t u a b. a ∙ sym b };

    fn of(&self, alloc: Global, sample: LabelSet) -> Result<LabelSet, Memory> {
        self.of_lent(alloc, &sample)
    }

    fn of_lent(&self, alloc: Global, sample: &LabelSet) -> Result<LabelSet, Memory> {
        sample.kept(&AllButNameAndBucket)
    }
}

/// The samples of the last bucket, which has no upper bound.
pub fn last_buckets<'a>(alloc: Global, samples: &[LabelSet]) -> Result<Samples<'a>, Memory>
    ensures { IfOk result (λ last. last ≡ last_buckets samples.now) }
{
    let mut last = Vec::new(alloc);
    for sample in samples {
        if is_last_bucket(sample) {
            last.push(sample.copy()?)?;
        }
    }
    Ok(Samples::from_vec(last))
}

/// Whether a sample is of the last bucket.
fn is_last_bucket(sample: &LabelSet) -> bool
    ensures { result ≡ bytes_eq (value_of sample.now (codes "le")) (codes "+Inf") }
{
    match sample.get("le") {
        Some(bound) => bound.as_str() == "+Inf",
        None => false,
    }
}
