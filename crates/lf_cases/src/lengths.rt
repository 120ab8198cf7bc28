//! How long a file may be.
ghost use Rattle.std.specs.Prelude.{◌≤◌, ◌^◌, length, OnOk};

use anyhow::{Result, ensure};

/// The longest file that is read, in bytes.
const LONGEST: usize = 2147483648;

/// Asks what the readers of files ask: that the file isn't too long.
pub fn ask_length(bytes: &[u8]) -> Result<()>
    ensures { OnOk result (length bytes.now ≤ 2 ^ 31) }
{
    ensure!(bytes.len() <= LONGEST, "the text is too long");
    Ok(())
}
