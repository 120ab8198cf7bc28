//! The reading of a whole file.
ghost use Rattle.std.specs.Prelude.{◌≡◌, ◌≢◌, ℕ, List, ◌+◌, ◌-◌, ◌<◌, ◌≤◌, ◌^◌, Err, length, take, drop, vec_len, IfOk, OnOk};
ghost use Rattle.lf_base.specs.Outside.{Faults, ReadsBytes};
ghost use Rattle.lf_lint.specs.Read.{AreAsTold};

use lf_base::{Failed, Files, Memory, Seq, Text};
use std::alloc::{AllocError, Global};

/// How many bytes are read into first. From then on the buffer doubles.
const FIRST: usize = 16 * 1024;

/// Why a file isn't read whole.
#[derive(Clone, Copy, PartialEq, Eq, Debug)]
pub enum ReadEnd {
    /// It could not be opened, or read to its end.
    Failed,
    /// It has more bytes than a file may have.
    TooLong,
    /// There was not enough memory.
    Memory,
}

impl From<Failed> for ReadEnd {
    ghost use Rattle.lf_lint.specs.declared.reading.ReadEnd.TheVariants.{Failed};

    ghost from_gives = { λ _ end. end ≡ Failed };

    fn from(_: Failed) -> ReadEnd {
        ReadEnd::Failed
    }
}

impl From<Memory> for ReadEnd {
    ghost use Rattle.lf_lint.specs.declared.reading.ReadEnd.TheVariants.{Memory};

    ghost from_gives = { λ _ end. end ≡ Memory };

    fn from(_: Memory) -> ReadEnd {
        ReadEnd::Memory
    }
}

impl From<AllocError> for ReadEnd {
    ghost use Rattle.lf_lint.specs.declared.reading.ReadEnd.TheVariants.{Memory};

    ghost from_gives = { λ _ end. end ≡ Memory };

    fn from(_: AllocError) -> ReadEnd {
        ReadEnd::Memory
    }
}

/// The bytes of the file of this name, from its first byte to the read that gives none.
///
/// Of a file of more than `most` bytes just `most + 1` are read.
pub fn read_whole<F: Files>(
    alloc: Global,
    files: &mut F,
    name: &Text,
    most: u32,
) -> Result<Seq<u8>, ReadEnd>
    requires calm { F.faults files.old ≡ 0 }
    requires room { F.opens files.old < 2 ^ 32 }

    ensures whole { IfOk result (λ bytes. AreAsTold (F.held files.old name.now) bytes × (length bytes ≤ most)) }
    ensures failed { result ≡ Err ReadEnd.Failed → F.faults files.old < F.faults files.new }
    ensures too_long { result ≡ Err ReadEnd.TooLong → (bytes : List ℕ) × AreAsTold (F.held files.old name.now) bytes × (most < length bytes) × AreAsTold (F.left files.new) (drop (most + 1) bytes) }

    // A file is opened unless memory is wanting, and the count of faults rises only where the reading failed.
    ensures opened { result ≢ Err ReadEnd.Memory → F.opens files.new ≡ F.opens files.old + 1 }
    ensures opened_once { (F.opens files.old ≤ F.opens files.new) × (F.opens files.new ≤ F.opens files.old + 1) }
    ensures calm { result ≢ Err ReadEnd.Failed → F.faults files.new ≡ F.faults files.old }
    ensures kept { (other : List ℕ) → F.held files.new other ≡ F.held files.old other }
{
    let room = most as usize + 1;
    let mut bytes = Vec::new(alloc);
    let mut filled = 0;
    files.open(name.as_str())?;
    while filled < room {
        make_room(&mut bytes, filled, room)?;
        let count = read_at(files, &mut bytes, filled)?;
        if count == 0 {
            bytes.truncate(filled);
            bytes.shrink_to_fit();
            return Ok(Seq::from_vec(bytes));
        }
        filled += count;
    }
    Err(ReadEnd::TooLong)
}

/// Sees to it that there are bytes to read over from `filled` on: as many zeros again where there are none, but no more than there is room for. So a short file takes little
/// room, and of a long one each byte is moved a time or two.
fn make_room(bytes: &mut Vec<u8>, filled: usize, room: usize) -> Result<(), AllocError>
    requires filled { filled ≤ vec_len bytes.old }
    requires some { filled < room }
    requires within { vec_len bytes.old ≤ room }
    ensures room { OnOk result (filled < vec_len bytes.new) }
    ensures within { OnOk result (vec_len bytes.new ≤ room) }
    ensures front { OnOk result (take filled bytes.new.items ≡ take filled bytes.old.items) }
{
    if filled < bytes.len() {
        return Ok(());
    }
    let step = FIRST.max(filled).min(room - filled);
    bytes.resize(filled + step, 0)
}

/// Reads the next bytes of the open file over those of the buffer from `at` on, and says how many they are.
fn read_at<F: Files>(files: &mut F, bytes: &mut Vec<u8>, at: usize) -> Result<usize, Failed>
    requires calm { F.faults files.old ≡ 0 }
    requires ready { F.is_open files.old }
    requires room { at < vec_len bytes.old }

    ensures cause { Faults (F.faults files.old) (F.faults files.new) result }
    ensures counted { F.opens files.new ≡ F.opens files.old }
    ensures ready { OnOk result (F.is_open files.new) }
    ensures within { IfOk result (λ n. at + n ≤ vec_len bytes.new) }
    ensures next { IfOk result (ReadsBytes (F.left files.old) (F.left files.new) (drop at bytes.new.items)) }
    ensures kept { (other : List ℕ) → F.held files.new other ≡ F.held files.old other }

    ensures len { vec_len bytes.new ≡ vec_len bytes.old }
    ensures front { take at bytes.new.items ≡ take at bytes.old.items }
{
    files.read(&mut bytes[at..])
}
