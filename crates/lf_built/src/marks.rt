//! The marked rules of a building.
ghost use Rattle.std.specs.Prelude.{◌≡◌, ◌++◌, ◌∷◌, [], false, true, reverse, IfNone, IfOk, OnOk};
ghost use Rattle.std.specs.Option.{option_to_list};
ghost use Rattle.lf_trials.specs.Reached.{is_marked};

use lf_base::Memory;
use std::alloc::Global;
use std::collections::BTreeSet;
use std::marker::Model;

/// How many marks are looked through, before the others are looked up.
const FEW: usize = 8;

/// The numbers of the marked rules, in the order in which they were marked. Few are marked in most buildings, and these are looked through. As many as there are rules may be,
/// and whether one behind the first few is marked is looked up.
#[derive(Drop)]
pub struct Marks {
    few: Vec<usize>,
    others: MarkSet,
}

impl Model for Marks {
    ghost use Rattle.std.specs.Prelude.{List, ℕ, ◌++◌};

    ghost Value = { List ℕ };

    ghost view = { λ m. m.few.items ++ m.others };
}

impl Marks {
    /// The mark of one rule.
    pub fn of(alloc: Global, number: usize) -> Result<Marks, Memory>
        ensures { IfOk result (λ marks. marks ≡ number ∷ []) }
    {
        let mut few = Vec::new(alloc);
        few.push(number)?;
        let others = MarkSet::none(alloc);
        Ok(Marks { few, others })
    }

    /// Whether a rule is marked.
    pub fn has(&self, number: usize) -> bool
        ensures { result ≡ is_marked (reverse self.now) number }
    {
        is_one_of(self.few.as_slice(), number) || self.others.has(number)
    }

    /// Marks a rule that isn't marked.
    pub fn put(&mut self, number: usize) -> Result<(), Memory>
        requires { is_marked (reverse self.old) number ≡ false }
        ensures { OnOk result (self.new ≡ self.old ++ number ∷ []) }
    {
        if self.few.len() < FEW && self.others.is_empty() {
            self.few.push(number)?;
            return Ok(());
        }
        self.others.put(number)
    }

    /// Takes the mark of the rule that was marked last off.
    pub fn pop(&mut self) -> Option<usize>
        ensures items { self.old ≡ self.new ++ option_to_list result }
        ensures none { IfNone result (self.old ≡ []) }
    {
        match self.others.pop() {
            Some(number) => Some(number),
            None => self.few.pop(),
        }
    }
}

/// Whether a number is one of these.
fn is_one_of(marks: &[usize], number: usize) -> bool
    ensures { result ≡ is_marked marks.now number }
{
    marks.iter().any(|mark| number == *mark)
}

/// Marks of which it is looked up in a set whether a number is one.
#[derive(Drop)]
struct MarkSet {
    numbers: Vec<usize>,
    set: BTreeSet<usize>,
}

impl Model for MarkSet {
    ghost use Rattle.std.specs.Prelude.{List, ℕ};
    ghost use Rattle.lf_built.specs.views.Marked.{AreMarks};

    ghost Value = { List ℕ };

    ghost view = { λ m. m.numbers.items };

    ghost invariant = { λ m. AreMarks m.numbers.items m.set };
}

impl MarkSet {
    /// No mark.
    fn none(alloc: Global) -> MarkSet
        ensures { result ≡ [] }
    {
        MarkSet {
            numbers: Vec::new(alloc),
            set: BTreeSet::new(alloc),
        }
    }

    /// Whether there is none.
    fn is_empty(&self) -> bool
        ensures { result ≡ true → self.now ≡ [] }
    {
        self.numbers.is_empty()
    }

    /// Whether a rule is marked.
    fn has(&self, number: usize) -> bool
        ensures { result ≡ is_marked (reverse self.now) number }
    {
        self.set.contains(&number)
    }

    /// Marks a rule that isn't marked.
    fn put(&mut self, number: usize) -> Result<(), Memory>
        requires { is_marked (reverse self.old) number ≡ false }
        ensures { OnOk result (self.new ≡ self.old ++ number ∷ []) }
    {
        self.numbers.push(number)?;
        if self.set.insert(number).is_err() {
            let _ = self.numbers.pop();
            return Err(Memory);
        }
        Ok(())
    }

    /// Takes the mark of the rule that was marked last off.
    fn pop(&mut self) -> Option<usize>
        ensures items { self.old ≡ self.new ++ option_to_list result }
        ensures none { IfNone result (self.old ≡ []) }
    {
        match self.numbers.pop() {
            Some(number) => {
                let _ = self.set.remove(&number);
                Some(number)
            }
            None => None,
        }
    }
}
