//! How a run ended.
ghost use Rattle.std.specs.Prelude.{◌≡◌};

/// How a run ended.
#[derive(Clone, Copy, PartialEq, Eq, Debug)]
pub enum Status {
    /// The whole report was written, and holds no problem and no refusal.
    Clean,
    /// The whole report was written, and holds a problem and no refusal.
    Problems,
    /// The words are none that the program knows. Nothing was read or written.
    Words,
    /// The whole report was written, and holds a refusal of a file.
    Refused,
    /// The file with this number, counted from 0, could not be opened or read to its end. Nothing was written.
    Read { file: u32 },
    /// The report could not be written whole.
    Write,
    /// There was not enough memory. Nothing was written.
    Memory,
    /// The quantity with this number passed its limit, with the count `found`. Nothing was written.
    Limit { quantity: u8, found: u64 },
}

impl Status {
    ghost use Rattle.lf_lint.specs.Statuses.{code_of};

    /// The exit code of the program.
    pub fn code(&self) -> u8
        ensures { result ≡ code_of self.now }
    {
        match self {
            Status::Clean => 0,
            Status::Problems => 1,
            Status::Words => 2,
            Status::Refused => 3,
            Status::Read { .. } => 4,
            Status::Write => 5,
            Status::Memory => 6,
            Status::Limit { .. } => 7,
        }
    }
}
