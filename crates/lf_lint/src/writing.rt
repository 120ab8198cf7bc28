//! The writing of the report.
ghost use Rattle.std.specs.Prelude.{◌≡◌, ℕ, ◌<◌, length, take, OnOk, OnErr};
ghost use Rattle.lf_base.specs.Outside.{Faults};
ghost use Rattle.lf_lint.specs.Ends.{Wrote};

use lf_base::{Failed, Sink};

/// Writes all the bytes, offering the whole rest each time. Where a call of the sink fails, a front of them was written.
pub fn write_whole<O: Sink>(out: &mut O, bytes: &[u8]) -> Result<(), Failed>
    requires { O.faults out.old ≡ 0 }
    ensures cause { Faults (O.faults out.old) (O.faults out.new) result }
    ensures whole { OnOk result (Wrote (O.taken out.old) (O.taken out.new) bytes.now) }
    ensures part { OnErr result ((k : ℕ) × (k < length bytes.now) × Wrote (O.taken out.old) (O.taken out.new) (take k bytes.now)) }
{
    let mut written = 0;
    while written < bytes.len() {
        let count = out.write(&bytes[written..])?;
        written += count;
    }
    Ok(())
}
