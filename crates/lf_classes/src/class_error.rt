//! Why there is no universe.
use lf_base::Memory;
use std::alloc::AllocError;
use thiserror::Error;

/// Why rules have no universe.
#[derive(Clone, Copy, PartialEq, Eq, Debug, Error)]
pub enum ClassError {
    /// There was not enough memory.
    #[error("out of memory")]
    Memory,
    /// There are more labels than may be; `found` counts all of them, without `*`.
    #[error("too many labels")]
    TooManyLabels { found: u64 },
    /// There are more classes than may be; `found` counts those of all labels.
    #[error("too many classes")]
    TooManyClasses { found: u64 },
}

impl From<Memory> for ClassError {
    ghost use Rattle.std.specs.Prelude.{◌≡◌};
    ghost use Rattle.lf_classes.specs.declared.class_error.ClassError.TheVariants as error_of;

    ghost from_gives = { λ _ e. e ≡ error_of.Memory };

    fn from(_: Memory) -> ClassError {
        ClassError::Memory
    }
}

impl From<AllocError> for ClassError {
    ghost use Rattle.std.specs.Prelude.{◌≡◌};
    ghost use Rattle.lf_classes.specs.declared.class_error.ClassError.TheVariants as error_of;

    ghost from_gives = { λ _ e. e ≡ error_of.Memory };

    fn from(_: AllocError) -> ClassError {
        ClassError::Memory
    }
}
