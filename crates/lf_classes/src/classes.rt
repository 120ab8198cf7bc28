//! The classes of a label.
ghost use Rattle.std.specs.Prelude.{◌≡◌, ◌++◌, codes, decimal, IfOk};
ghost use Rattle.lf_semantics.specs.Listing.{IsFirstFree};

use crate::text_set::TextSet;
use lf_base::{Memory, Text};
use std::alloc::Global;
use std::marker::Model;

/// The texts of a label that are classes of their own, and one that stands for 'any other text'.
#[derive(Drop)]
pub struct Classes {
    texts: TextSet,
    other: Text,
}

impl Model for Classes {
    ghost use Rattle.std.specs.Prelude.{List, ℕ, codes};
    ghost use Rattle.lf_semantics.specs.Listing.{IsFirstFree};

    ghost Value = { List (List ℕ) };

    ghost view = { λ c. c.texts };

    ghost invariant = { λ c. IsFirstFree (codes "v") c.texts c.other };
}

impl Classes {
    /// The classes of a label with these texts.
    pub fn of(alloc: Global, texts: TextSet) -> Result<Classes, Memory>
        ensures { IfOk result (λ classes. classes ≡ texts) }
    {
        let other = first_free(alloc, &texts)?;
        Ok(Classes { texts, other })
    }

    /// The texts that are classes of their own.
    pub fn texts(&self) -> &TextSet
        ensures { result.now ≡ self.now }
    {
        &self.texts
    }

    /// A text that is no class of its own: the first of `v1`, `v2`, ..
    pub fn other(&self) -> &Text
        ensures { IsFirstFree (codes "v") self.now result.now }
    {
        &self.other
    }
}

/// The first of `v1`, `v2`, .. that is none of these texts.
fn first_free(alloc: Global, taken: &TextSet) -> Result<Text, Memory>
    ensures { IfOk result (IsFirstFree (codes "v") taken.now) }
{
    let count = taken.len();
    for number in 0..count + 1 {
        let text = numbered(alloc, number as u64 + 1)?;
        if taken.place(text.as_str()) == count {
            return Ok(text);
        }
    }
    unreachable!()
}

/// `v` and a number.
fn numbered(alloc: Global, number: u64) -> Result<Text, Memory>
    ensures { IfOk result (λ text. text ≡ codes "v" ++ decimal number) }
{
    let text = format!(in alloc; "v{number}")?;
    Ok(Text::from_string(text))
}
