//! What stands open first in rules, where what stands open in the expression of a rule is looked for once.
ghost use Rattle.std.specs.Prelude.{◌≡◌, ◌<◌, ◌∷◌, [], ℕ, Some, length, IfOk, slice_get, slice_index_or, slice_set};
ghost use Rattle.std.specs.List.{Contains};
ghost use Rattle.lf_deps.specs.Ordering.{without};
ghost use Rattle.lf_open.specs.OpenList.{IsFirstOpen};
ghost use Rattle.lf_open.specs.views.Firsts.{AreFirstsReady, AreKept, IsFirstOfEach, IsOwnFirst, earlier, rules_in};
ghost use Rattle.lf_open.specs.views.Known.{IsKnown, rules_of};
ghost use Rattle.lf_open.specs.views.Opens.{AreReady, rules_of_opens};

use crate::known::RuleReadings;
use crate::open_at::OpenAt;
use crate::opens::{Opens, own_list};
use lf_base::Memory;
use lf_deps::reach_of;
use std::alloc::Global;

/// What stands open first in rules. What stands open in the expression of a rule is looked for when a rule that reads it is first asked about, and never again: what comes first
/// is kept.
#[derive(Drop)]
pub struct OpenFirsts<'a> {
    opens: &'a Opens<'a>,
    /// For each rule that was looked at, what stands open first in its expression, if anything does.
    own: Vec<Option<Option<OpenAt>>>,
}

impl<'a> OpenFirsts<'a> {
    /// Those of rules of which none was looked at.
    pub fn of(alloc: Global, opens: &'a Opens<'a>) -> Result<OpenFirsts<'a>, Memory>
        requires { AreReady opens.now }
        ensures { IfOk result (λ firsts. AreFirstsReady firsts × (rules_in firsts ≡ rules_of_opens opens.now)) }
    {
        let own = vec![in alloc; None; opens.rules.len()]?;
        Ok(OpenFirsts { opens, own })
    }

    /// The first open construct of the rule of number `i`, if there is one.
    pub fn first(&mut self, alloc: Global, i: u32) -> Result<Option<OpenAt>, Memory>
        requires ready { AreFirstsReady self.old }
        requires rule { i < length (rules_in self.old) }
        ensures first { IfOk result (IsFirstOpen (rules_in self.old) i) }
        ensures ready { AreFirstsReady self.new }
        ensures same { rules_in self.new ≡ rules_in self.old }
    {
        let opens = self.opens;
        let known = opens.known();
        let reach = reach_of(alloc, known.sources, known.graph, i)?;
        let own = own_first(&known, alloc, &mut self.own, i as usize)?;
        let others = first_of_others(&known, alloc, &mut self.own, reach.as_slice(), i)?;
        Ok(earlier(own, others))
    }
}

/// What stands open first in the expressions of the rules of some numbers, one after the other, but for one of these rules.
fn first_of_others(
    known: &RuleReadings<'_>,
    alloc: Global,
    kept: &mut Vec<Option<Option<OpenAt>>>,
    numbers: &[u32],
    i: u32,
) -> Result<Option<OpenAt>, Memory>
    requires known { IsKnown known.now }
    requires kept { AreKept (rules_of known.now) kept.old.items }
    requires rules { (k : ℕ) → Contains numbers.now k → k < length known.now.rules.now }
    ensures first { IfOk result (IsFirstOfEach (rules_of known.now) (without i numbers.now)) }
    ensures kept { AreKept (rules_of known.now) kept.new.items }
{
    let mut first = None;
    for number in numbers {
        let other = other_first(known, alloc, kept, *number, i)?;
        first = earlier(first, other);
    }
    Ok(first)
}

/// What stands open first in the expression of the rule of a number, but for one number.
fn other_first(
    known: &RuleReadings<'_>,
    alloc: Global,
    kept: &mut Vec<Option<Option<OpenAt>>>,
    number: u32,
    i: u32,
) -> Result<Option<OpenAt>, Memory>
    requires known { IsKnown known.now }
    requires kept { AreKept (rules_of known.now) kept.old.items }
    requires rule { number < length known.now.rules.now }
    ensures first { IfOk result (IsFirstOfEach (rules_of known.now) (without i (number ∷ []))) }
    ensures kept { AreKept (rules_of known.now) kept.new.items }
{
    if number == i {
        return Ok(None);
    }
    own_first(known, alloc, kept, number as usize)
}

/// What stands open first in the expression of the rule of a number. It is looked for where it isn't kept.
fn own_first(
    known: &RuleReadings<'_>,
    alloc: Global,
    kept: &mut Vec<Option<Option<OpenAt>>>,
    k: usize,
) -> Result<Option<OpenAt>, Memory>
    requires known { IsKnown known.now }
    requires kept { AreKept (rules_of known.now) kept.old.items }
    requires rule { k < length known.now.rules.now }
    ensures first { IfOk result (IsOwnFirst (rules_of known.now) k) }
    ensures kept { AreKept (rules_of known.now) kept.new.items }
{
    let before = kept_at(kept.as_slice(), k);
    if let Some(first) = before {
        return Ok(first);
    }
    let own = own_list(known, alloc, k)?;
    let first = first_of(own.as_slice());
    keep(kept, k, first);
    Ok(first)
}

/// What is kept of the rule of a number.
fn kept_at(kept: &[Option<Option<OpenAt>>], k: usize) -> Option<Option<OpenAt>>
    requires { k < length kept.now }
    ensures { result ≡ slice_index_or kept.now k result }
{
    kept[k]
}

/// Keeps what stands open first in the expression of the rule of a number.
fn keep(kept: &mut Vec<Option<Option<OpenAt>>>, k: usize, first: Option<OpenAt>)
    requires { k < length kept.old.items }
    ensures { kept.new.items ≡ slice_set kept.old.items k (Some first) }
{
    kept[k] = Some(first);
}

/// The first of open constructs, if there is one.
fn first_of(list: &[OpenAt]) -> Option<OpenAt>
    ensures { result ≡ slice_get list.now 0 }
{
    match list.get(0) {
        Some(first) => Some(*first),
        None => None,
    }
}

/// The first of two, if there is one, and else the other.
fn earlier(first: Option<OpenAt>, later: Option<OpenAt>) -> Option<OpenAt>
    ensures { result ≡ earlier first later }
{
    match first {
        Some(item) => Some(item),
        None => later,
    }
}
