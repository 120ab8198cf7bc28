//! Why there is no report on rules.

use lf_base::Memory;

/// Why there is no report on rules.
#[derive(Clone, Copy, PartialEq, Eq, Debug)]
pub enum JudgeEnd {
    /// There was not enough memory.
    Memory,
    /// The quantity with this number passed its limit, with the count `found`.
    Limit { quantity: u8, found: u64 },
}

impl From<Memory> for JudgeEnd {
    ghost use Rattle.std.specs.Prelude.{◌≡◌};
    ghost use Rattle.lf_judge.specs.declared.judge_end.JudgeEnd.TheVariants as end_of;

    ghost from_gives = { λ _ e. e ≡ end_of.Memory };

    fn from(_: Memory) -> JudgeEnd {
        JudgeEnd::Memory
    }
}
