//! Why words aren't read.

ghost use Rattle.std.specs.Prelude.{◌≡◌, ◌≢◌};
ghost use Rattle.clap.specs.Words.{kind_of};
ghost use Rattle.clap.specs.declared.error.kind.ErrorKind.TheVariants as kind;

use clap::Error as ClapError;
use clap::error::ErrorKind;
use lf_base::Memory;
use std::alloc::AllocError;
use thiserror::Error;

/// Why words aren't read.
#[derive(Clone, Copy, PartialEq, Eq, Debug, Error)]
pub enum WordFault {
    /// They ask for nothing that the program does.
    #[error("the words must be: lint [--workers N] [--format text|json] [--labels] FILE.. or: gen N")]
    Refused,
    /// They ask for something, but there was not enough memory to read them.
    #[error("not enough memory")]
    Memory,
}

impl From<Memory> for WordFault {
    ghost use Rattle.std.specs.Prelude.{◌≡◌};
    ghost use Rattle.lf_words.specs.declared.fault.WordFault.TheVariants as fault;

    ghost from_gives = { λ _ e. e ≡ fault.Memory };

    fn from(_: Memory) -> WordFault {
        WordFault::Memory
    }
}

impl From<AllocError> for WordFault {
    ghost use Rattle.std.specs.Prelude.{◌≡◌};
    ghost use Rattle.lf_words.specs.declared.fault.WordFault.TheVariants as fault;

    ghost from_gives = { λ _ e. e ≡ fault.Memory };

    fn from(_: AllocError) -> WordFault {
        WordFault::Memory
    }
}

/// The fault of words for which `clap` has an error.
pub fn word_fault(error: &ClapError) -> WordFault
    ensures { result ≡ WordFault.Refused → kind_of error.now ≢ kind.OutOfMemory }
{
    if error.kind() == ErrorKind::OutOfMemory {
        WordFault::Memory
    } else {
        WordFault::Refused
    }
}
