//! Why a text gives no pattern.

use lf_base::Memory;
use std::alloc::AllocError;
use thiserror::Error;

/// Why a text gives no pattern.
#[derive(Clone, Copy, PartialEq, Eq, Debug, Error)]
pub enum PatternError {
    /// The text is no pattern by the grammar of `regex`, or is nested too deep.
    #[error("the pattern can't be read")]
    BadPattern,
    /// There was not enough memory, or the compiled pattern would pass the size limit.
    #[error("out of memory")]
    Memory,
}

impl From<Memory> for PatternError {
    ghost use Rattle.std.specs.Prelude.{◌≡◌};
    ghost use Rattle.lf_pattern.specs.declared.error.PatternError.TheVariants as error_of;

    ghost from_gives = { λ _ e. e ≡ error_of.Memory };

    fn from(_: Memory) -> PatternError {
        PatternError::Memory
    }
}

impl From<AllocError> for PatternError {
    ghost use Rattle.std.specs.Prelude.{◌≡◌};
    ghost use Rattle.lf_pattern.specs.declared.error.PatternError.TheVariants as error_of;

    ghost from_gives = { λ _ e. e ≡ error_of.Memory };

    fn from(_: AllocError) -> PatternError {
        PatternError::Memory
    }
}
