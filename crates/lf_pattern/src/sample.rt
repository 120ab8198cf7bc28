//! Samples that are being made.
ghost use Rattle.std.specs.Prelude.{◌≡◌, [], Some, IfOk, encode_utf8, option_map};
ghost use Rattle.lf_pattern.specs.ShapeScan.{counted_by, followed_by, joined, nothing_read, pair, times_of};

use lf_base::{Memory, Text};
use std::alloc::Global;
use std::marker::Model;

/// The greatest number of bytes of a sample.
const LONGEST: usize = 256;

/// A part of a sample, or None where it has more bytes than a sample may have.
#[derive(Drop)]
pub struct Sample {
    text: Option<String>,
}

impl Model for Sample {
    ghost use Rattle.std.specs.Prelude.{List, ℕ, Option, option_map, string_bytes};
    ghost use Rattle.std.specs.Coded.{coded_ℕ, coded_list, coded_option};

    ghost Value = { Option (List ℕ) };

    ghost coded = { coded_option (coded_list coded_ℕ) };

    ghost view = { λ s. option_map string_bytes s.text };
}

impl Sample {
    /// No byte.
    fn empty(alloc: Global) -> Sample
        ensures { result ≡ Some [] }
    {
        Sample {
            text: Some(String::new(alloc)),
        }
    }

    /// One character.
    fn of(alloc: Global, c: char) -> Result<Sample, Memory>
        ensures { IfOk result (λ s. s ≡ Some (encode_utf8 c)) }
    {
        let mut text = String::new(alloc);
        text.push(c)?;
        Ok(Sample { text: Some(text) })
    }

    /// Puts another part behind this one.
    fn followed(self, other: &Sample) -> Result<Sample, Memory>
        ensures { IfOk result (λ s. s ≡ joined self other.now) }
    {
        let Some(mut text) = self.text else {
            return Ok(Sample { text: None });
        };
        let Some(more) = &other.text else {
            return Ok(Sample { text: None });
        };
        if text.len().saturating_add(more.len()) > LONGEST {
            return Ok(Sample { text: None });
        }
        text.push_str(more.as_str())?;
        Ok(Sample { text: Some(text) })
    }

    /// This part so many times.
    fn times(&self, alloc: Global, n: u32) -> Result<Sample, Memory>
        ensures { IfOk result (λ s. s ≡ times_of n self.now) }
    {
        let mut all = Sample::empty(alloc);
        for _ in 0..n {
            all = all.followed(self)?;
        }
        Ok(all)
    }

    /// The text of a sample, or None where it is too long.
    pub fn into_text(self) -> Option<Text>
        ensures { result ≡ self }
    {
        match self.text {
            Some(text) => Some(Text::from_string(text)),
            None => None,
        }
    }
}

/// The low and the high sample of a part of a pattern.
#[derive(Drop)]
pub struct Both {
    /// The low one.
    pub low: Sample,
    /// The high one.
    pub high: Sample,
}

impl Both {
    /// No byte in either.
    pub fn nothing(alloc: Global) -> Both
        ensures { result ≡ nothing_read }
    {
        Both {
            low: Sample::empty(alloc),
            high: Sample::empty(alloc),
        }
    }

    /// One character in each.
    pub fn of(alloc: Global, low: char, high: char) -> Result<Both, Memory>
        ensures { IfOk result (λ b. b ≡ pair (encode_utf8 low) (encode_utf8 high)) }
    {
        let low = Sample::of(alloc, low)?;
        let high = Sample::of(alloc, high)?;
        Ok(Both { low, high })
    }

    /// Puts others behind these.
    pub fn followed(self, other: &Both) -> Result<Both, Memory>
        ensures { IfOk result (λ b. b ≡ followed_by self other.now) }
    {
        let low = self.low.followed(&other.low)?;
        let high = self.high.followed(&other.high)?;
        Ok(Both { low, high })
    }

    /// These with a count: the low one so many times, and the high one too, but once where the number is 0.
    pub fn counted(&self, alloc: Global, least: u32) -> Result<Both, Memory>
        ensures { IfOk result (λ b. b ≡ counted_by least self.now) }
    {
        let low = self.low.times(alloc, least)?;
        let high = self.high.times(alloc, least.max(1))?;
        Ok(Both { low, high })
    }
}
