//! The kinds of open constructs.
ghost use Rattle.std.specs.Prelude.{◌≡◌};
ghost use Rattle.lf_open.specs.Constructs.{number_of};

/// What a construct is that stands in the way of an answer.
#[derive(Clone, Copy, Drop, Debug)]
pub enum Construct {
    /// `O1`: an operator between two vectors whose sides read a common metric.
    SharedMetric,
    /// `O2`: a selector that says no metric name.
    UnnamedSelector,
    /// `O3`: a matcher's pattern that isn't plain.
    ComplexPattern,
    /// `O4`: `label_replace`, `label_join` or `count_values`.
    MadeLabel,
    /// `O5`: samples that may come from one place or another beneath what joins or narrows them.
    Forked,
    /// `O6`: an `unless` whose right side always has a sample of its own.
    LoudUnless,
    /// `O7`: a selector of a recorded name that is read in its own making.
    CyclicName,
    /// `O8`: a `histogram_quantile` beneath which `le` is named.
    NamedBucket,
    /// `O9`: an `absent` whose answer is open.
    OpenAbsent,
}

impl Construct {
    /// The number of its code: the 1 of `O1`.
    pub fn number(self) -> u8
        ensures { result ≡ number_of self }
    {
        match self {
            Construct::SharedMetric => 1,
            Construct::UnnamedSelector => 2,
            Construct::ComplexPattern => 3,
            Construct::MadeLabel => 4,
            Construct::Forked => 5,
            Construct::LoudUnless => 6,
            Construct::CyclicName => 7,
            Construct::NamedBucket => 8,
            Construct::OpenAbsent => 9,
        }
    }
}
