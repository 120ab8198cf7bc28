//! The outside as the linter sees it: where files come from, where the report goes, and a gate for workers.
//!
//! Each object keeps a count of its faults, which never falls. A call may answer [`Failed`] only where that count rose, and no call may be made once it
//! isn't 0; so whoever holds the object after a run can tell a fault of the outside from a mistake of the program.
ghost use Rattle.std.specs.Prelude.{◌≡◌, ℕ, List, Option, ◌+◌, ◌<◌, ◌≤◌, ◌^◌, length, IfOk, OnOk};
ghost use Rattle.lf_base.specs.Outside.{Faults, ReadsBytes, Takes};

/// A call of the outside failed.
#[derive(Clone, Copy, PartialEq, Eq, Debug)]
pub struct Failed;

/// Files by name, one of them open at a time.
pub trait Files {
    /// The bytes held under a name, where the object tells them.
    ghost held: { Self → List ℕ → Option (List ℕ) };

    /// The bytes left to read of the open file, where the object tells them.
    ghost left: { Self → Option (List ℕ) };

    /// How many calls failed so far.
    ghost faults: { Self → ℕ };

    /// How many calls of `open` there were so far, answered or failed.
    ghost opens: { Self → ℕ };

    /// A file is open.
    ghost is_open: { Self → Type 0 };

    /// Opens the file of this name at its first byte, in place of the one that was open.
    fn open(&mut self, name: &str) -> Result<(), Failed>
        requires calm { faults self.old ≡ 0 }
        requires room { opens self.old < 2 ^ 32 }
        ensures cause { Faults (faults self.old) (faults self.new) result }
        ensures counted { opens self.new ≡ opens self.old + 1 }
        ensures ready { OnOk result (is_open self.new) }
        ensures whole { OnOk result (left self.new ≡ held self.old name.now) }
        ensures kept { (other : List ℕ) → held self.new other ≡ held self.old other };

    /// Puts the next bytes of the open file at the front of the buffer, and says how many they are. No byte is the end of the file.
    fn read(&mut self, buf: &mut [u8]) -> Result<usize, Failed>
        requires calm { faults self.old ≡ 0 }
        requires ready { is_open self.old }
        requires room { 0 < length buf.old }
        ensures cause { Faults (faults self.old) (faults self.new) result }
        ensures counted { opens self.new ≡ opens self.old }
        ensures ready { OnOk result (is_open self.new) }
        ensures within { IfOk result (λ n. n ≤ length buf.old) }
        ensures next { IfOk result (λ n. ReadsBytes (left self.old) (left self.new) buf.new n) }
        ensures kept { (other : List ℕ) → held self.new other ≡ held self.old other };
}

/// A place for bytes.
pub trait Sink {
    /// The bytes taken so far, where the object tells them.
    ghost taken: { Self → Option (List ℕ) };

    /// How many calls failed so far.
    ghost faults: { Self → ℕ };

    /// Takes bytes from the front of the piece, at least one, and says how many they are. A call that fails takes none.
    fn write(&mut self, piece: &[u8]) -> Result<usize, Failed>
        requires calm { faults self.old ≡ 0 }
        requires some { 0 < length piece.now }
        ensures cause { Faults (faults self.old) (faults self.new) result }
        ensures within { IfOk result (λ n. (0 < n) × (n ≤ length piece.now)) }
        ensures takes { Takes (taken self.old) (taken self.new) piece.now result };
}

/// What a worker passes between the claim of a piece of work and the work on it, so that a test can hold workers up there.
pub trait Gate {
    /// Phase 0 is the reading of files, 1 the rounds of the least environment, 2 verdicts and checks. Pieces are numbered from 0.
    fn pass(&self, phase: u8, piece: u32);
}

/// The gate that holds nobody up.
#[derive(Clone, Copy, PartialEq, Eq, Debug)]
pub struct OpenGate;

impl Gate for OpenGate {
    fn pass(&self, _phase: u8, _piece: u32) {}
}
