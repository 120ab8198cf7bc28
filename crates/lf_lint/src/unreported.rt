//! Why no report is made.
ghost use Rattle.std.specs.Prelude.{◌≡◌};

use crate::Status;
use lf_base::Memory;
use lf_judge::JudgeEnd;

/// Why no report is made.
#[derive(Clone, Copy, PartialEq, Eq, Debug)]
pub enum Unreported {
    /// The file with this number could not be opened or read to its end.
    Read { file: u32 },
    /// There was not enough memory.
    Memory,
    /// The quantity with this number passed its limit, with the count `found`.
    Limit { quantity: u8, found: u64 },
}

impl Unreported {
    ghost use Rattle.lf_lint.specs.views.Making.{status_of};

    /// How it ends a run.
    pub fn status(self) -> Status
        ensures { result ≡ status_of self }
    {
        match self {
            Unreported::Read { file } => Status::Read { file },
            Unreported::Memory => Status::Memory,
            Unreported::Limit { quantity, found } => Status::Limit { quantity, found },
        }
    }
}

impl From<Memory> for Unreported {
    ghost use Rattle.lf_lint.specs.declared.unreported.Unreported.TheVariants as unreported;

    ghost from_gives = { λ _ e. e ≡ unreported.Memory };

    fn from(_: Memory) -> Unreported {
        Unreported::Memory
    }
}

impl From<JudgeEnd> for Unreported {
    ghost use Rattle.lf_lint.specs.views.Making.{judged_by};

    ghost from_gives = { λ end e. e ≡ judged_by end };

    fn from(end: JudgeEnd) -> Unreported {
        match end {
            JudgeEnd::Memory => Unreported::Memory,
            JudgeEnd::Limit { quantity, found } => Unreported::Limit { quantity, found },
        }
    }
}
