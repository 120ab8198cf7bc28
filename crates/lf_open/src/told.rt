//! What is told of an expression, and of several at once.
ghost use Rattle.std.specs.Prelude.{◌≡◌, ◌++◌, IfOk};
ghost use Rattle.lf_open.specs.views.Told.{appended, beside, gathered, nothing};

use crate::number_set::NumberSet;
use crate::open_at::OpenAt;
use lf_base::{Memory, Seq};
use std::alloc::Global;

/// What is told of an expression. Nothing within a scalar is looked at.
#[derive(Drop)]
pub(crate) struct ExpressionFacts {
    /// Whether it is a scalar.
    pub(crate) scalar: bool,
    /// Whether it holds a fork, in itself or in what it reads.
    pub(crate) fork: bool,
    /// Whether it holds a call that gives a sample without being given one: whether it can't be silent.
    pub(crate) loud: bool,
    /// Whether a matcher or a recording rule names `le`.
    pub(crate) bucket: bool,
    /// The numbers of the names that it reads.
    pub(crate) reads: NumberSet,
    /// What is open in it by what is told of its parts, in no order.
    pub(crate) found: Seq<OpenAt>,
}

impl ExpressionFacts {
    /// Nothing, but perhaps that it is a scalar.
    pub(crate) fn nothing(alloc: Global, scalar: bool) -> ExpressionFacts
        ensures { result ≡ nothing scalar }
    {
        ExpressionFacts {
            scalar,
            fork: false,
            loud: false,
            bucket: false,
            reads: NumberSet::new(alloc),
            found: Seq::new(alloc),
        }
    }

    /// What is told of an expression at once with what is told of its parts.
    pub(crate) fn gather(
        self,
        alloc: Global,
        parts: Vec<ExpressionFacts>,
    ) -> Result<ExpressionFacts, Memory>
        ensures { IfOk result (λ all. all ≡ gathered self parts.items) }
    {
        let mut all = self;
        for part in parts {
            all = all.beside(alloc, part)?;
        }
        Ok(all)
    }

    /// What is told of two at once.
    fn beside(self, alloc: Global, other: ExpressionFacts) -> Result<ExpressionFacts, Memory>
        ensures { IfOk result (λ made. made ≡ beside self other) }
    {
        let reads = self.reads.join(alloc, other.reads)?;
        let found = append(self.found, other.found)?;
        Ok(ExpressionFacts {
            scalar: self.scalar,
            fork: self.fork || other.fork,
            loud: self.loud || other.loud,
            bucket: self.bucket || other.bucket,
            reads,
            found,
        })
    }
}

/// Puts the fewer behind the more, so that none is moved often.
fn append(left: Seq<OpenAt>, right: Seq<OpenAt>) -> Result<Seq<OpenAt>, Memory>
    ensures { IfOk result (λ found. found ≡ appended left right) }
{
    if left.len() < right.len() {
        with(right, left.as_slice())
    } else {
        with(left, right.as_slice())
    }
}

/// Open constructs with others behind them.
fn with(many: Seq<OpenAt>, few: &[OpenAt]) -> Result<Seq<OpenAt>, Memory>
    ensures { IfOk result (λ found. found ≡ many ++ few.now) }
{
    let mut found = many;
    found.extend_from_slice(few)?;
    Ok(found)
}
