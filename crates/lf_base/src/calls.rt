//! The count of calls by which the stand-ins of the outside fail where a test wants them to.
ghost use Rattle.std.specs.Prelude.{◌≡◌, ◌+◌, ◌-◌, ◌⊎◌, ◌↔◌, Contains, IsTrue, IsErr, OnOk, OnErr, false};
ghost use Rattle.lf_base.specs.Calls.{Calls, no_calls, IsListed, answered, failed};

use crate::{Failed, Memory};
use std::alloc::Global;
use std::marker::Model;

/// How many calls were made and how many of them failed, and the numbers of the calls that are to fail.
#[derive(Debug, Drop)]
pub struct CallCount {
    failing: Vec<u32>,
    made: u64,
    faults: u64,
}

impl Model for CallCount {
    ghost use Rattle.lf_base.specs.Calls.{Calls};

    ghost Value = { Calls };

    ghost view = { λ c. record { failing = c.failing.items; made = c.made; faults = c.faults } };
}

impl CallCount {
    /// No call was made, and none is to fail.
    pub fn new(alloc: Global) -> CallCount
        ensures { result ≡ no_calls }
    {
        CallCount {
            failing: Vec::new(alloc),
            made: 0,
            faults: 0,
        }
    }

    /// Sets the numbers of the calls that are to fail, counted from 1 over all calls, in place of those set before.
    pub fn fail(&mut self, calls: &[u32]) -> Result<(), Memory>
        ensures ok { OnOk result (self.new ≡ record self.old { failing = calls.now }) }
        ensures err { OnErr result (self.new ≡ self.old) }
    {
        self.failing = Vec::from_slice(*self.failing.allocator(), calls)?;
        Ok(())
    }

    /// Counts a call. It fails where its number is listed, and where it isn't possible.
    pub fn answer(&mut self, possible: bool) -> Result<(), Failed>
        requires calm { self.old.faults ≡ 0 }
        ensures fails { IsErr result ↔ (IsListed self.old ⊎ (possible ≡ false)) }
        ensures ok { OnOk result (self.new ≡ answered self.old) }
        ensures err { OnErr result (self.new ≡ failed self.old) }
    {
        self.made = self.made.saturating_add(1);
        if possible && !is_listed(self.failing.as_slice(), self.made) {
            return Ok(());
        }
        self.faults += 1;
        Err(Failed)
    }
}

/// Whether a number stands in a list.
fn is_listed(listed: &[u32], number: u64) -> bool
    ensures { IsTrue result ↔ Contains listed.now number }
{
    listed.iter().any(|each| u64::from(*each) == number)
}
