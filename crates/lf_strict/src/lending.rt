//! Samples that are lent from where they are stored, or are made.
ghost use Rattle.std.specs.Prelude.{◌≡◌, ◌++◌, ◌∷◌, ◌<◌, [], length, slice_get, IfOk, Some};

use lf_ast::LabelSet;
use lf_base::{Memory, Seq};
use std::alloc::Global;
use std::marker::Model;
use std::slice::from_ref;

/// Samples that a selector gives, or that are made. Most often there is one, for which no list is made, and which stays where it is stored until something changes it.
#[derive(Drop)]
pub struct Samples<'a> {
    pub held: Held<'a>,
}

/// Where samples are.
#[derive(Drop)]
pub enum Held<'a> {
    /// No sample.
    Nothing,
    /// One that is stored.
    Lent { sample: &'a LabelSet },
    /// One that was made.
    Alone { sample: LabelSet },
    /// Any number.
    Listed { samples: Vec<LabelSet> },
}

impl<'a> Model for Samples<'a> {
    ghost use Rattle.std.specs.Prelude.{List};
    ghost use Rattle.std.specs.Coded.{coded_ℕ, coded_list};
    ghost use Rattle.std.specs.FinMap as map;
    ghost use Rattle.lf_ast.specs.Labels.{Labels};
    ghost use Rattle.lf_strict.specs.views.Lending.{samples_held};

    ghost Value = { List Labels };

    ghost coded = { coded_list (map.code (coded_list coded_ℕ) (coded_list coded_ℕ)) };

    ghost view = { λ samples. samples_held samples.held };
}

impl<'a> Samples<'a> {
    /// No sample.
    pub fn new() -> Samples<'a>
        ensures { result ≡ [] }
    {
        Samples {
            held: Held::Nothing,
        }
    }

    /// A stored sample, which isn't copied.
    pub fn lent(sample: &'a LabelSet) -> Samples<'a>
        ensures { result ≡ sample.now ∷ [] }
    {
        Samples {
            held: Held::Lent { sample },
        }
    }

    /// A sample that was made.
    pub fn alone(sample: LabelSet) -> Samples<'a>
        ensures { result ≡ sample ∷ [] }
    {
        Samples {
            held: Held::Alone { sample },
        }
    }

    /// The samples of a `Vec`.
    pub fn from_vec(samples: Vec<LabelSet>) -> Samples<'a>
        ensures { result ≡ samples.items }
    {
        Samples {
            held: Held::Listed { samples },
        }
    }

    /// All samples, in their order.
    pub fn as_slice(&self) -> &[LabelSet]
        ensures { result.now ≡ self.now }
    {
        match &self.held {
            Held::Nothing => &[],
            Held::Lent { sample } => from_ref(*sample),
            Held::Alone { sample } => from_ref(sample),
            Held::Listed { samples } => samples.as_slice(),
        }
    }

    /// How many samples there are.
    pub fn len(&self) -> usize
        ensures { result ≡ length self.now }
    {
        self.as_slice().len()
    }

    /// The sample at `k`, counted from 0.
    pub fn get(&self, k: usize) -> &LabelSet
        requires { k < length self.now }
        ensures value { slice_get self.now k ≡ Some result.now }
    {
        &self.as_slice()[k]
    }

    /// These samples and a stored one behind them, which is copied only where it isn't alone.
    pub fn and(self, alloc: Global, sample: &'a LabelSet) -> Result<Samples<'a>, Memory>
        ensures { IfOk result (λ all. all ≡ self.entry ++ sample.now ∷ []) }
    {
        if self.len() == 0 {
            return Ok(Samples::lent(sample));
        }
        let mut all = self.into_vec(alloc)?;
        all.push(sample.copy()?)?;
        Ok(Samples::from_vec(all))
    }

    /// A `Vec` of the samples, of which one that is stored is copied.
    pub fn into_vec(self, alloc: Global) -> Result<Vec<LabelSet>, Memory>
        ensures { IfOk result (λ all. all.items ≡ self.entry) }
    {
        match self.held {
            Held::Nothing => Ok(Vec::new(alloc)),
            Held::Lent { sample } => only_one(alloc, sample.copy()?),
            Held::Alone { sample } => only_one(alloc, sample),
            Held::Listed { samples } => Ok(samples),
        }
    }

    /// A list of the samples, of which one that is stored is copied.
    pub fn into_list(self, alloc: Global) -> Result<Seq<LabelSet>, Memory>
        ensures { IfOk result (λ all. all ≡ self.entry) }
    {
        Ok(Seq::from_vec(self.into_vec(alloc)?))
    }
}

/// A `Vec` of one sample.
fn only_one(alloc: Global, sample: LabelSet) -> Result<Vec<LabelSet>, Memory>
    ensures { IfOk result (λ all. all.items ≡ sample ∷ []) }
{
    let mut all = Vec::with_capacity(alloc, 1)?;
    all.push(sample)?;
    Ok(all)
}
